/// What a copier may do once its call has ended.
#[derive(Clone, Copy)]
pub enum Room {
    /// It is counted, and may copy.
    Inside,
    /// It is not counted: there was no room, and nobody copies any more.
    Stopped,
}
