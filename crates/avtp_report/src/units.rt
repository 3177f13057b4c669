//! Numbers in the form that is easiest to read.

use std::fmt;

/// A number with a comma before each group of three digits.
#[derive(Clone, Copy)]
pub struct Grouped(pub u64);

impl fmt::Display for Grouped {
    fn fmt<W: fmt::Write>(&self, f: &mut fmt::Formatter<W>) -> fmt::Result {
        let Grouped(number) = *self;
        let mut part: u64 = 1_000_000_000_000_000_000;
        let mut begun = false;
        for _ in 0..7 {
            let group = number.checked_div(part).unwrap_or(0) % 1000;
            if begun {
                write!(f, ",{group:03}")?;
            } else if group > 0 || part == 1 {
                write!(f, "{group}")?;
                begun = true;
            }
            part /= 1000;
        }
        Ok(())
    }
}

/// A number of nanoseconds, written in microseconds with three decimals.
#[derive(Clone, Copy)]
pub struct Micros(pub i64);

impl fmt::Display for Micros {
    fn fmt<W: fmt::Write>(&self, f: &mut fmt::Formatter<W>) -> fmt::Result {
        let Micros(nanoseconds) = *self;
        let sign = if nanoseconds < 0 { "-" } else { "" };
        let size = nanoseconds.unsigned_abs();
        let whole = size / 1000;
        let rest = size % 1000;
        write!(f, "{sign}{whole}.{rest:03}")
    }
}

/// A number of thousandths, written as a number with three decimals.
#[derive(Clone, Copy)]
pub struct Thousandths(pub i128);

impl fmt::Display for Thousandths {
    fn fmt<W: fmt::Write>(&self, f: &mut fmt::Formatter<W>) -> fmt::Result {
        let Thousandths(number) = *self;
        let sign = if number < 0 { "-" } else { "" };
        let size = number.unsigned_abs();
        let whole = size / 1000;
        let rest = size % 1000;
        write!(f, "{sign}{whole}.{rest:03}")
    }
}

/// A number of nanoseconds, written in the unit that is easiest to read. A span has no sign.
#[derive(Clone, Copy)]
pub struct Span(pub u64);

impl fmt::Display for Span {
    fn fmt<W: fmt::Write>(&self, f: &mut fmt::Formatter<W>) -> fmt::Result {
        let Span(size) = *self;
        match size {
            0..=9_999 if size % 1000 != 0 => {
                let size = Grouped(size);
                write!(f, "{size} ns")
            }
            0..=9_999_999 => write_decimals(f, size, "µs"),
            10_000_000..=9_999_999_999 => write_decimals(f, size / 1_000, "ms"),
            _ => write_decimals(f, size / 1_000_000, "s"),
        }
    }
}

/// Writes a number of thousandths of `unit` as a number of units with at most three decimals.
fn write_decimals<W: fmt::Write>(
    f: &mut fmt::Formatter<W>,
    thousandths: u64,
    unit: &str,
) -> fmt::Result {
    let whole = Grouped(thousandths / 1000);
    let rest = thousandths % 1000;
    if rest == 0 {
        write!(f, "{whole} {unit}")
    } else if rest % 10 != 0 {
        write!(f, "{whole}.{rest:03} {unit}")
    } else if rest % 100 != 0 {
        let tens = rest / 10;
        write!(f, "{whole}.{tens:02} {unit}")
    } else {
        let hundreds = rest / 100;
        write!(f, "{whole}.{hundreds} {unit}")
    }
}

/// A number of nanoseconds, written as `Span` does, with a `-` if it is below 0.
#[derive(Clone, Copy)]
pub struct Signed(pub i64);

impl fmt::Display for Signed {
    fn fmt<W: fmt::Write>(&self, f: &mut fmt::Formatter<W>) -> fmt::Result {
        let Signed(size) = *self;
        let sign = if size < 0 { "-" } else { "" };
        let span = Span(size.unsigned_abs());
        write!(f, "{sign}{span}")
    }
}

/// A number of packets.
#[derive(Clone, Copy)]
pub struct Packets(pub u64);

impl fmt::Display for Packets {
    fn fmt<W: fmt::Write>(&self, f: &mut fmt::Formatter<W>) -> fmt::Result {
        let Packets(number) = *self;
        let noun = if number == 1 { "packet" } else { "packets" };
        let number = Grouped(number);
        write!(f, "{number} {noun}")
    }
}

/// An Ethernet address.
#[derive(Clone, Copy)]
pub struct Address(pub u64);

impl fmt::Display for Address {
    fn fmt<W: fmt::Write>(&self, f: &mut fmt::Formatter<W>) -> fmt::Result {
        let Address(address) = *self;
        let [_, _, a, b, c, d, e, g] = address.to_be_bytes();
        write!(f, "{a:02x}:{b:02x}:{c:02x}:{d:02x}:{e:02x}:{g:02x}")
    }
}

/// A text, escaped for HTML.
#[derive(Clone, Copy)]
pub struct Escaped<'a>(pub &'a str);

impl fmt::Display for Escaped<'_> {
    fn fmt<W: fmt::Write>(&self, f: &mut fmt::Formatter<W>) -> fmt::Result {
        for c in self.0.chars() {
            match entity_of(c) {
                Some(entity) => f.write_str(entity)?,
                None => f.write_char(c)?,
            }
        }
        Ok(())
    }
}

/// What stands for a character that has a meaning in HTML.
fn entity_of(c: char) -> Option<&'static str> {
    match c {
        '&' => Some("&amp;"),
        '<' => Some("&lt;"),
        '>' => Some("&gt;"),
        '"' => Some("&quot;"),
        _ => None,
    }
}
