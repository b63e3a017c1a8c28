// The text of a schedule, read section by section: the sizes, the count of events, event after event, the end.
// Each call takes what it reads off the front of the text and gives the rest; the first line that is not of its
// form is named in the fault, and what stood before it has been handed out.
#![tactic(auto)]

mod sections;

pub use sections::{line_of_event, read_limit, take_count, take_end, take_event, take_sizes};
pub use textline::{Event, FormFault, SizeLines};
