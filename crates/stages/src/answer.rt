// What an accepted call answers.
#[derive(Clone, Copy)]
pub enum Answer {
    // nothing more to say
    Done,
    // a step was taken
    Step,
    // a step looked at the card's spin, which is not 0
    Wait,
    // the transaction was doomed; the card is back at its begin
    Lost,
    // the card is inside now
    In,
    // the card is idle now
    Out,
    // the add is finished, and the counter holds this
    Added { count: u16 },
    // the counter holds this
    Count { count: u16 },
}
