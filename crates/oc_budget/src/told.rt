//! What is told of the costs of a program.
/// For each region its budget, in steps behind its `enter`, and how many words it logs at most;
/// how many instructions a run takes at most; and how many steps a period needs so that each
/// further one makes headway.
#[derive(Drop)]
pub struct Budgets {
    /// The budget of each region, in steps.
    pub regions: Vec<u64>,
    /// How many words each region logs at most.
    pub logged: Vec<u32>,
    /// How many instructions a run takes at most.
    pub total: u64,
    /// How many steps a safe period has.
    pub safe: u64,
}
