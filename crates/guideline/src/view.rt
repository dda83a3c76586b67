// A view of a lent table, by value: where its rows stand. Number k of row i is number first + i * step + k * jump of the table.
#[derive(Clone, Copy)]
pub struct View {
    pub first: usize,
    pub step: usize,
    pub jump: usize,
    pub rows: usize,
}
