// Rows and columns of the active area, counted from its corner.

#[derive(Clone, Copy)]
pub struct ActiveRow(pub usize);

#[derive(Clone, Copy)]
pub struct ActiveColumn(pub usize);
