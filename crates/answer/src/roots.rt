// The roots of a forest, as they are printed.
use crate::hex::*;
use std::fmt;
use utreexo::record::Record;
use utreexo::types::Value;

// Roots by row. The largest tree comes first, and commas stand between; `-` where there is no tree.
#[derive(Clone, Copy)]
pub struct Roots<'a> {
    pub count: u32,
    pub roots: &'a [Option<Value>; 32],
}

// The root of a tree.
fn write_root<W: fmt::Write>(
    f: &mut fmt::Formatter<W>,
    separator: &str,
    root: &Option<Value>,
) -> fmt::Result {
    match root {
        Some(value) => write!(f, "{separator}{}", Hex(&value.to_bytes())),
        None => write!(f, "{separator}blank"),
    }
}

impl fmt::Display for Roots<'_> {
    fn fmt<W: fmt::Write>(&self, f: &mut fmt::Formatter<W>) -> fmt::Result {
        if self.count == 0 {
            return write!(f, "-");
        }
        let mut separator = "";
        for row in (0..32u8).rev() {
            if place::has_tree(self.count, row) {
                write_root(f, separator, &self.roots[row as usize])?;
                separator = ",";
            }
        }
        Ok(())
    }
}
