//! The beginning of updating.

ghost use Rattle.std.specs.Prelude.{◌≡◌, ◌<◌};
ghost use Rattle.image_graph.specs.SeatBuffers.{AreInside};
ghost use Rattle.image_graph.specs.State.{config_of, memory_of};
ghost use Rattle.cycle_words.specs.Updating.Changes.{updating_begun, init_updated};
ghost use Rattle.cycle_words.specs.StillHolds.{LimitsHold};
ghost use Rattle.update_refs.specs.Steps.{limit_in, limited, update_started};

use heap_words::phase::UPDATING;
use image_graph::Image;
use regions::is_in;

// Up to where the objects of a region have references to be updated: its edge, or 0 for a region of the collection set.
fn limit(image: &Image, region: usize) -> u64
    requires { region < (config_of image.now).regions }
    ensures { result ≡ limit_in (config_of image.now) (memory_of image.now) region }
{
    if is_in(image.word(image.config().cset_at()), region) {
        return 0;
    }
    image.edge(region)
}

// Notes the limits of all regions.
fn note_limits(image: &mut Image)
    ensures config { config_of image.new ≡ config_of image.old }
    ensures words { memory_of image.new ≡ limited (config_of image.old) (config_of image.old).regions (memory_of image.old) }
{
    let config = image.config();
    for region in 0..config.regions() {
        let limit = limit(image, region);
        image.set_word(config.limit_at(region), limit);
    }
}

// Updating runs: no copier is counted, and no unit is claimed.
fn start(image: &mut Image)
    ensures config { config_of image.new ≡ config_of image.old }
    ensures words { memory_of image.new ≡ update_started (memory_of image.old) }
{
    let config = image.config();
    image.set_word(config.evac_at(), 0);
    image.set_word(config.claim_at(), 0);
    image.set_word(config.phase_at(), UPDATING);
}

// Begins the updating of references, where buffers are settled.
fn begin(image: &mut Image)
    ensures config { config_of image.new ≡ config_of image.old }
    ensures words { memory_of image.new ≡ updating_begun (config_of image.old) (memory_of image.old) }
{
    note_limits(image);
    start(image);
}

/// Begins the updating of references: buffers are settled, the limit of each region outside of the collection set is its edge,
/// and that of each region of the set is 0. No copier is counted and no unit claimed. All other words stay, and so does the
/// graph that the image holds. Takes no memory, and time linear in the number of regions and seats together.
pub fn init_update(image: &mut Image)
    requires { AreInside (config_of image.old) (memory_of image.old) }
    ensures config { config_of image.new ≡ config_of image.old }
    ensures words { memory_of image.new ≡ init_updated (config_of image.old) (memory_of image.old) }
    ensures holds { LimitsHold (config_of image.old) (memory_of image.old) (memory_of image.new) }
{
    image.settle();
    begin(image);
}
