use rows::WorkerRequest;

/// What a worker does next.
#[derive(Drop)]
pub enum WorkerStep {
    /// It waits for a newer state.
    Later,
    /// Nothing.
    Drop,
    /// It asks the leader to accept a plan, to end the work on the evaluation, or to take it back;
    /// never to be given one.
    Ask(WorkerRequest),
}
