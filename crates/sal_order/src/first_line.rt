//! The order on the first line of a text: parsed leniently, then written again and compared.
ghost use Rattle.std.specs.Prelude.{◌≡◌, ◌+◌, ◌*◌, ◌-◌, ◌^◌, ◌%◌, ◌++◌, IfOk, OnOk, option_map, string_bytes};
ghost use Rattle.std.specs.List.{flat_map};
ghost use Rattle.sal_order.specs.FirstLines as spec;

use sal_types::NoMemory;
use std::alloc::Global;

/// The order on the first line: `order`, and for each call a space and its client's number below 2^32 without leading zeros, ended by LF. None if the
/// first line has another form. Cost: one look at each byte of the line, which is written once more.
pub fn first_order(alloc: Global, text: &[u8]) -> Result<Option<Vec<u32>>, NoMemory>
    ensures { IfOk result (λ told. option_map (λ order. order.items) told ≡ spec.told_order text.now) }
{
    let order = numbers_of(alloc, text)?;
    let line = line_of(alloc, &order)?;
    if text.starts_with(line.as_bytes()) {
        Ok(Some(order))
    } else {
        Ok(None)
    }
}

// The numbers in a line after its first five bytes, if it is the line of an order.
fn numbers_of(alloc: Global, text: &[u8]) -> Result<Vec<u32>, NoMemory>
    ensures { IfOk result (λ v. v.items ≡ spec.numbers_in text.now) }
{
    if text.len() > 5 && text[5] == b' ' {
        numbers_in(alloc, &text[6..])
    } else {
        Ok(Vec::new(alloc))
    }
}

// The numbers up to the end of the line, with a space between two of them.
fn numbers_in(alloc: Global, text: &[u8]) -> Result<Vec<u32>, NoMemory>
    ensures { IfOk result (λ v. v.items ≡ spec.read_from 0 text.now) }
{
    let mut order = Vec::new(alloc);
    let mut number = 0;
    for byte in text {
        if *byte == b'\n' {
            order.push(number)?;
            return Ok(order);
        }
        if *byte == b' ' {
            order.push(number)?;
            number = 0;
        } else {
            number = with_digit(number, *byte);
        }
    }
    Ok(order)
}

// A number with one more digit, modulo 2^32.
fn with_digit(number: u32, byte: u8) -> u32
    ensures { result ≡ (10 * number + (byte - 48)) % 2 ^ 32 }
{
    let digit = u64::from(byte.saturating_sub(48));
    let longer = 10 * u64::from(number) + digit;
    (longer % 4294967296) as u32
}

// The line of an order.
fn line_of(alloc: Global, order: &[u32]) -> Result<String, NoMemory>
    ensures { IfOk result (λ s. string_bytes s ≡ spec.line_of order.now) }
{
    let mut line = String::from_str(alloc, "order")?;
    push_numbers(&mut line, order)?;
    line.push('\n')?;
    Ok(line)
}

fn push_numbers(line: &mut String, order: &[u32]) -> Result<(), NoMemory>
    ensures { OnOk result (string_bytes line.new ≡ string_bytes line.old ++ flat_map spec.number order.now) }
{
    for client in order {
        write!(line, " {client}")?;
    }
    Ok(())
}
