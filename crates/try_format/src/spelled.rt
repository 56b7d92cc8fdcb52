// Types and hints, as they are written in a text.
use format::{Base, Clock, Hint, Kind, Width};
use std::fmt;

#[derive(Clone, Copy)]
pub struct Spelled<T>(pub T);

impl fmt::Display for Spelled<Width> {
    fn fmt<W: fmt::Write>(&self, f: &mut fmt::Formatter<W>) -> fmt::Result {
        f.write_str(match self.0 {
            Width::W8 => "8",
            Width::W16 => "16",
            Width::W32 => "32",
            Width::W64 => "64",
            Width::W128 => "128",
            Width::Size => "size",
        })
    }
}

impl fmt::Display for Spelled<Kind> {
    fn fmt<W: fmt::Write>(&self, f: &mut fmt::Formatter<W>) -> fmt::Result {
        match self.0 {
            Kind::Bool => f.write_str("bool"),
            Kind::Unsigned(width) => write!(f, "u{}", Spelled(width)),
            Kind::Signed(width) => write!(f, "i{}", Spelled(width)),
            Kind::F32 => f.write_str("f32"),
            Kind::F64 => f.write_str("f64"),
            Kind::Str => f.write_str("str"),
            Kind::Istr => f.write_str("istr"),
            Kind::Char => f.write_str("char"),
            Kind::Format => f.write_str("?"),
            Kind::Bytes => f.write_str("[u8]"),
            Kind::Formats => f.write_str("[?]"),
            Kind::ByteArray(n) => write!(f, "[u8;{n}]"),
            Kind::FormatArray(n) => write!(f, "[?;{n}]"),
            Kind::Bits(low, high) => write!(f, "{low}..{high}"),
            Kind::Debug => f.write_str("__internal_Debug"),
            Kind::Display => f.write_str("__internal_Display"),
            Kind::Sequence => f.write_str("__internal_FormatSequence"),
        }
    }
}

impl fmt::Display for Spelled<Clock> {
    fn fmt<W: fmt::Write>(&self, f: &mut fmt::Formatter<W>) -> fmt::Result {
        f.write_str(match self.0 {
            Clock::Us => "us",
            Clock::Ms => "ms",
            Clock::Ts => "ts",
            Clock::Tms => "tms",
            Clock::Tus => "tus",
        })
    }
}

impl fmt::Display for Spelled<Base> {
    fn fmt<W: fmt::Write>(&self, f: &mut fmt::Formatter<W>) -> fmt::Result {
        f.write_str(match self.0 {
            Base::Binary => "b",
            Base::Octal => "o",
            Base::Lower => "x",
            Base::Upper => "X",
        })
    }
}

// With its colon; nothing where no hint is written.
impl fmt::Display for Spelled<Hint> {
    fn fmt<W: fmt::Write>(&self, f: &mut fmt::Formatter<W>) -> fmt::Result {
        match self.0 {
            Hint::Plain => Ok(()),
            Hint::Ascii => f.write_str(":a"),
            Hint::Debug => f.write_str(":?"),
            Hint::Time(clock) => write!(f, ":{}", Spelled(clock)),
            Hint::Padded(n) => write!(f, ":0{n}"),
            Hint::Radix(base, alternate, pad) => {
                f.write_str(if alternate { ":#" } else { ":" })?;
                if pad > 0 {
                    write!(f, "0{pad}")?;
                }
                write!(f, "{}", Spelled(base))
            }
        }
    }
}
