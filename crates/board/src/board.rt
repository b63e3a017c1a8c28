use door::door::Door;

// A board on any memory. It adds no code to the door: its calls are the door's, and their contracts carry the promise
// over every run.
#[derive(Drop)]
pub struct Board<M> {
    pub(crate) door: Door<M>,
}
