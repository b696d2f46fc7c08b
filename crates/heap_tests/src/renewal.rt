ghost use Rattle.std.specs.Prelude.{◌≡◌, IfOk};
ghost use Rattle.shen_core.specs.State.{config_of, Shows};
ghost use Rattle.shen_core.specs.Progress.{AllRest};
ghost use Rattle.shen_core.specs.RenewedHeap.{StandsRenewable};

use heap_words::{Config, NoMemory};
use shen_core::{Plain, Renewal, renew_heap};
use std::alloc::Global;
use std::test::Fail;

// A heap that was just opened can be renewed.
fn opened(alloc: Global, config: Config) -> Result<Plain, NoMemory>
    ensures rest { IfOk result AllRest }
    ensures renewable { IfOk result StandsRenewable }
{
    Plain::open(alloc, config)
}

// With ample memory a heap is renewed.
#[test]
fn an_opened_heap_is_renewed(rt: HostRuntime) -> Result<(), Fail> {
    let mut plain = opened(rt.alloc(), Config::new(4, 64, 2, 0, 1)?)?;
    let renewal = renew_heap(rt.alloc(), &mut plain)?;
    assert!(rt; matches!(&renewal, Renewal::Renewed(_)));
    Ok(())
}
