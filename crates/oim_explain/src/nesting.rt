use oim_report::MOST_LEVELS;
use serde_json::Error;

/// Returns whether the parser stopped at an object or array that is nested too deep. The parser's
/// message does not state this. The parser's position is after the bracket, or at the bracket if the
/// text ends there.
pub(crate) fn is_too_deep(bytes: &[u8], error: &Error) -> bool {
    let mut nesting = Nesting::default();
    let (mut line, mut column) = (1usize, 1usize);
    let last = bytes.len().saturating_sub(1);
    for (index, byte) in bytes.iter().enumerate() {
        if index < last && (line, column) >= (error.line(), error.column()) {
            break;
        }
        nesting.step(*byte);
        (line, column) = match byte {
            b'\n' => (line.saturating_add(1), 1),
            _ => (line, column.saturating_add(1)),
        };
    }
    nesting.levels > MOST_LEVELS
}

/// The levels of objects and arrays that are open after a part of a JSON text.
#[derive(Clone, Copy, Default)]
struct Nesting {
    levels: usize,
    is_in_string: bool,
    is_escaped: bool,
}

impl Nesting {
    fn step(&mut self, byte: u8) {
        if self.is_escaped {
            self.is_escaped = false;
        } else if self.is_in_string {
            self.is_escaped = byte == b'\\';
            self.is_in_string = byte != b'"';
        } else {
            self.step_outside(byte);
        }
    }

    fn step_outside(&mut self, byte: u8) {
        match byte {
            b'"' => self.is_in_string = true,
            b'{' | b'[' => self.levels = self.levels.saturating_add(1),
            b'}' | b']' => self.levels = self.levels.saturating_sub(1),
            _ => {}
        }
    }
}
