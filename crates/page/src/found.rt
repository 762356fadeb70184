// What a page knows of an entry.

#[derive(Clone, Copy)]
pub struct Found<E> {
    pub entry: E,
    pub struck: bool,
    // its chain of parents reaches the ground
    pub standing: bool,
}
