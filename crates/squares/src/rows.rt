// A row's weights: p, q and r of a pair, or p of a lone row. They stand beside the row's two points. The enum is a rule
// of the project.
#[derive(Clone, Copy)]
pub enum Weights {
    Pair(i64, i64, i64),
    Lone(i64),
}
