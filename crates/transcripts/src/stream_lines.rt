// The text of streams, as a script has it.
use crate::lines::expanded;
use crate::scene::NamedBytes;
use guard_rules::number_of;
use std::alloc::{AllocError, Global};
use stream_dump::push_decimal;
use stream_text::pack;
use sx_base::{Blob, MemInputs, MemSink, Outcome, Verdict};

/// A text that is not at its end yet.
#[derive(Debug, Drop)]
pub(crate) struct Begun {
    alloc: Global,
    /// The file that its streams become.
    pub(crate) name: String,
    // Whether the file gets the lines themselves.
    is_plain: bool,
    text: Blob,
    lines: u64,
}

impl Begun {
    /// A text without a line. A plain one stands for itself.
    pub(crate) fn new(alloc: Global, name: &str, is_plain: bool) -> Result<Begun, AllocError> {
        Ok(Begun {
            alloc,
            name: String::from_str(alloc, name)?,
            is_plain,
            text: Blob::new(alloc),
            lines: 0,
        })
    }

    /// Adds a line, or as many as it says.
    pub(crate) fn add(&mut self, line: &str) -> Result<(), AllocError> {
        if let Some(more) = line.strip_prefix("repeat ")
            && let Some((count, line)) = more.split_once(' ')
            && let Some(count) = number_of(count.as_bytes())
        {
            for number in 0..count {
                let line = numbered(self.alloc, line, number)?;
                self.push(line.as_str())?;
            }
            return Ok(());
        }
        self.push(line)
    }

    fn push(&mut self, line: &str) -> Result<(), AllocError> {
        let line = expanded(self.alloc, line)?;
        self.text.push_all(line.as_bytes())?;
        self.text.push_all(b"\n")?;
        self.lines = self.lines.saturating_add(1);
        Ok(())
    }

    /// The streams of its lines; none where a line is wrong, whose number is given then, from 1 on.
    /// Of a plain text the lines.
    pub(crate) fn packed(&self) -> Result<Result<Blob, u64>, AllocError> {
        if self.is_plain {
            return Ok(Ok(self.text.copy()?));
        }
        let mut inputs = MemInputs::new(self.alloc);
        inputs.add("text", self.text.as_slice())?;
        let mut stream = MemSink::new(self.alloc);
        let wrong = match pack(self.alloc, &mut inputs, "text", &mut stream) {
            Outcome::Done => None,
            Outcome::Refused(Verdict { command, .. }) if command > self.lines => None,
            Outcome::Refused(Verdict { command, .. }) => Some(command),
            _ => return Err(AllocError),
        };
        if let Some(number) = wrong {
            return Ok(Err(number));
        }
        let mut bytes = Blob::new(self.alloc);
        bytes.push_all(stream.bytes())?;
        Ok(Ok(bytes))
    }
}

// A line with a number for each `#`.
fn numbered(alloc: Global, line: &str, number: u64) -> Result<String, AllocError> {
    let mut digits = Blob::new(alloc);
    push_decimal(number, &mut digits)?;
    let mut to = String::new(alloc);
    for (place, part) in line.split('#').enumerate() {
        if place > 0 {
            for digit in digits.as_slice() {
                to.push(char::from(*digit))?;
            }
        }
        to.push_str(part)?;
    }
    Ok(to)
}
