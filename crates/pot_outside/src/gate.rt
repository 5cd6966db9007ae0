/// Is called round each job of a batch with the job's place in the batch, from 0. It has no meaning
/// and no fault, and it may wait.
pub trait Gate: Sync {
    fn before(&self, position: u32);

    fn after(&self, position: u32);
}
