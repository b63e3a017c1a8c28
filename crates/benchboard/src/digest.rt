// A number for each answer, and a running digest of them: two boards that differ in one answer differ in it.
use door::fault::DoorFault;
use stages::answer::Answer;

// The answer as a number, which is what C can take: its kind above, what it carries below.
fn code(answer: Result<Answer, DoorFault>) -> u64 {
    match answer {
        Ok(Answer::Done) => 1 << 16,
        Ok(Answer::Step) => 2 << 16,
        Ok(Answer::Wait) => 3 << 16,
        Ok(Answer::Lost) => 4 << 16,
        Ok(Answer::In) => 5 << 16,
        Ok(Answer::Out) => 6 << 16,
        Ok(Answer::Added { count }) => (7 << 16) + u64::from(count),
        Ok(Answer::Count { count }) => (8 << 16) + u64::from(count),
        Err(fault) => (9 << 16) + u64::from(fault.number()),
    }
}

// The digest with one answer more.
pub(crate) fn extended(digest: u64, answer: Result<Answer, DoorFault>) -> u64 {
    digest.wrapping_mul(31).wrapping_add(code(answer))
}
