// The device's state, as a line for people.
use device::{Head, Mode};
use std::fmt;

#[derive(Clone, Copy)]
pub struct State(pub Head);

// A value, or `none`.
#[derive(Clone, Copy)]
struct OrNone<T>(Option<T>);

impl<T: fmt::Display> fmt::Display for OrNone<T> {
    fn fmt<W: fmt::Write>(&self, f: &mut fmt::Formatter<W>) -> fmt::Result {
        match &self.0 {
            Some(value) => value.fmt(f),
            None => f.write_str("none"),
        }
    }
}

// A number in hex, with so many digits at least.
#[derive(Clone, Copy)]
struct Code(u32, usize);

impl fmt::Display for Code {
    fn fmt<W: fmt::Write>(&self, f: &mut fmt::Formatter<W>) -> fmt::Result {
        let Code(number, digits) = *self;
        write!(f, "0x{number:0digits$X}")
    }
}

impl fmt::Display for State {
    fn fmt<W: fmt::Write>(&self, f: &mut fmt::Formatter<W>) -> fmt::Result {
        let h = self.0;
        let made = h.made;
        match h.mode {
            Mode::Stack => f.write_str("stack runs")?,
            Mode::Idle => f.write_str("FUS idle")?,
            Mode::Upgrade { recorded, .. } => write!(
                f,
                "upgrade, recorded {recorded}, made {made}"
            )?,
            Mode::Delete { recorded } => write!(f, "delete, recorded {recorded}, made {made}")?,
        }
        let boundary = h.boundary;
        let version = OrNone(h.present.then_some(Code(h.version, 8)));
        let keys = h.count;
        let loaded = OrNone((h.loaded != 0).then_some(h.loaded));
        let error = OrNone((h.error != 0).then_some(Code(u32::from(h.error), 2)));
        let floor = OrNone(h.rollback.then_some(Code(h.floor, 8)));
        write!(
            f,
            ", boundary {boundary}, version {version}, keys {keys}, loaded {loaded}, error {error}, floor {floor}"
        )
    }
}
