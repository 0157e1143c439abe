use crate::part::Place;

/// The text at this place cannot go on as the line that is due there, or ends too early. Refusal 1.
#[derive(Clone, Copy, PartialEq, Eq, Debug)]
pub struct LineFault {
    pub place: Place,
}
