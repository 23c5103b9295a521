// Questions on one span.
use span::tag::Tag;
use texts::stock::Text;

// A tag or a number by its key, or whether the span is a top level, is measured, or is a snapshot of one that has not
// ended.
// A value and no closure, since what is answered to each is a definition over the value.
#[derive(Clone, Copy, Debug)]
pub enum Question {
    Tag(Text),
    Number(Text),
    TopLevel,
    Measured,
    PartialSnapshot,
}

// What is answered: a tag or none, a number or none, or yes or no.
#[derive(Clone, Copy, Debug)]
pub enum Reply {
    Tag(Option<Tag>),
    Number(Option<f64>),
    Flag(bool),
}
