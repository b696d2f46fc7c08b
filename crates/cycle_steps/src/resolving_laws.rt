//! What the steps of resolving an address owe, where objects are evacuated beside the threads: laws, as theorems and no code.

ghost use Rattle.cycle_steps.specs.Resolving.Laws.{ResolvingSteps, HeadersLead};

/// A law: each step of a machine that resolves an address of the collection set keeps what all machines share and what the others rely
/// on, and in the end it has the address of the object's current copy, which may be used. To words of copies it makes loads alone, but for
/// the exchange of the object's header that publishes its copy.
pub fn resolving_steps()
    ensures { ResolvingSteps }
{}

/// A law: a header that is forwarded leads to the object's current copy, which is not, and outside pauses the header of a copy changes
/// only once, from that of an object that has not moved to one that is forwarded.
pub fn headers_lead()
    ensures { HeadersLead }
{}
