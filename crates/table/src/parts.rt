// Where the parts of a table lie in its bytes.

// The items of a section: how many, and where the first lies.
#[derive(Clone, Copy)]
pub struct Items {
    pub count: usize,
    pub at: usize,
}

// The parts of an accepted table.
#[derive(Clone, Copy)]
pub struct Layout {
    // How many codes are listed.
    pub actions: usize,
    // Of each state the count of its transitions.
    pub states: Items,
    pub transitions: Items,
    pub entries: Items,
}
