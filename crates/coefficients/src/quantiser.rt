// RULES 3.8: what makes a coefficient of a level, with the matrix of its kind among the tables.
#[derive(Clone, Copy)]
pub struct Quantiser {
    pub intra: bool,
    pub scale: u32,
}
