// What differs between records of plain bytes: the flags that are kept, the lengths, and what a byte is read as.
ghost use Rattle.std.specs.Prelude.{◌≡◌, ◌&&◌, nat_le};
ghost use Rattle.kind_bytes.specs.Layouts.{layout_of, symbol_width};

use records::bits::field;

#[derive(Clone, Copy)]
pub enum Content {
    Uart,
    Ethernet,
}

// The matches give values by content, not steps, and read as a table.
impl Content {
    // The flags that are kept.
    pub(crate) fn mask(self) -> u16
        ensures { result ≡ (layout_of self).mask }
    {
        match self {
            Content::Uart => 0x400F,
            Content::Ethernet => 0xE000,
        }
    }

    // Whether a record may have so many bytes.
    pub(crate) fn allows(self, length: usize) -> bool
        ensures { result ≡ nat_le (layout_of self).least length && nat_le length (layout_of self).most }
    {
        match self {
            Content::Uart => matches!(length, 1..=1_000),
            Content::Ethernet => matches!(length, 18..=1_472),
        }
    }

    // The width of a symbol by the flags as read, if they have a setting that is allowed.
    pub(crate) fn width(self, flags: u16) -> Option<SymbolWidth>
        ensures { result ≡ (layout_of self).width flags }
    {
        match self {
            Content::Uart => SymbolWidth::of_flags(flags),
            Content::Ethernet => Some(SymbolWidth::Eight),
        }
    }
}

// How many bits of a byte a symbol has.
#[derive(Clone, Copy)]
pub(crate) enum SymbolWidth {
    Seven,
    Eight,
}

impl SymbolWidth {
    // No `TryFrom`: of all flags it reads one field.
    fn of_flags(flags: u16) -> Option<SymbolWidth>
        ensures { result ≡ symbol_width flags }
    {
        match field(flags, 1, 3) {
            2 => Some(SymbolWidth::Seven),
            3 => Some(SymbolWidth::Eight),
            _ => None,
        }
    }
}
