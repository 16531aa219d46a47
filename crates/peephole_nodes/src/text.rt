//! The texts of numeric nodes and vector nodes.
ghost use Rattle.std.specs.Prelude.{Some};
ghost use Rattle.peephole_nodes.specs.Text.{numeric_text, simd_text};

use crate::fronts::front_at;
use crate::numeric::Numeric;
use crate::payload_text::PayloadText;
use crate::simd::Simd;
use std::fmt;

impl fmt::Display for Numeric {
    ghost output = { λ n. Some (numeric_text n) };

    fn fmt<W: fmt::Write>(&self, f: &mut fmt::Formatter<W>) -> fmt::Result {
        f.write_str(front_at(self.place()))
    }
}

impl fmt::Debug for Numeric {
    ghost debug_output = { λ n. Some (numeric_text n) };

    fn fmt<W: fmt::Write>(&self, f: &mut fmt::Formatter<W>) -> fmt::Result {
        fmt::Display::fmt(self, f)
    }
}

impl fmt::Display for Simd {
    ghost output = { λ s. Some (simd_text s) };

    fn fmt<W: fmt::Write>(&self, f: &mut fmt::Formatter<W>) -> fmt::Result {
        let front = front_at(self.place());
        let payload = PayloadText(self.payload());
        write!(f, "{front}{payload}")
    }
}

impl fmt::Debug for Simd {
    ghost debug_output = { λ s. Some (simd_text s) };

    fn fmt<W: fmt::Write>(&self, f: &mut fmt::Formatter<W>) -> fmt::Result {
        fmt::Display::fmt(self, f)
    }
}
