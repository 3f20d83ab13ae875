// An entry of an index: the offering under which the row of an id is filed.

/// The id of a row, and the offering under which it stands.
#[derive(Clone, Copy)]
pub struct Mark {
    pub id: u32,
    pub offering: u32,
}
