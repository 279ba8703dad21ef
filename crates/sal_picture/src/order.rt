//! The order on the first line of a report.
ghost use Rattle.std.specs.Prelude.{◌≡◌, IfOk, OnOk};
ghost use Rattle.std.specs.List.{fold};
ghost use Rattle.sal_draw.specs.Acts.{option_list};
ghost use Rattle.sal_picture.specs.Order as spec;

use sal_types::{NoMemory, append};
use std::alloc::Global;

// The numbers so far, and the one that is being read.
#[derive(Drop)]
struct Reading {
    done: Vec<u32>,
    word: Option<u32>,
}

fn with_digit(n: u32, digit: u8) -> u32
    ensures { result ≡ spec.with_digit n digit }
{
    n.saturating_mul(10).saturating_add(u32::from(digit))
}

impl Reading {
    fn byte(&mut self, b: u8) -> Result<(), NoMemory>
        ensures { OnOk result (spec.reading_of self.new ≡ spec.read_byte (spec.reading_of self.old) b) }
    {
        if b.is_ascii_digit() {
            self.word = Some(with_digit(self.word.unwrap_or(0), b - b'0'));
            return Ok(());
        }
        self.end()
    }

    // The number that is being read ends here.
    fn end(&mut self) -> Result<(), NoMemory>
        ensures { OnOk result (spec.reading_of self.new ≡ spec.ended (spec.reading_of self.old)) }
    {
        if let Some(number) = self.word {
            self.word = None;
            return append(&mut self.done, number);
        }
        Ok(())
    }
}

/// The numbers in the line.
fn order_of(alloc: Global, line: &[u8]) -> Result<Vec<u32>, NoMemory>
    ensures { IfOk result (λ order. order.items ≡ spec.order_of line.now) }
{
    let mut reading = Reading {
        done: Vec::new(alloc),
        word: None,
    };
    for b in line {
        reading.byte(*b)?;
    }
    reading.end()?;
    let Reading { done, .. } = reading;
    Ok(done)
}

fn first_line(text: &[u8]) -> &[u8]
    ensures { result.now ≡ spec.first_line text.now }
{
    for i in 0..text.len() {
        if text[i] == b'\n' {
            return &text[..i];
        }
    }
    text
}

/// The order on the report's first line.
pub(crate) fn order_in(alloc: Global, report: &[u8]) -> Result<Vec<u32>, NoMemory>
    ensures { IfOk result (λ order. order.items ≡ spec.order_of (spec.first_line report.now)) }
{
    order_of(alloc, first_line(report))
}
