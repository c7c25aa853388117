// The acceptance filter: which frames pass, and how many identifiers it lets through.
ghost use Rattle.std.specs.Prelude.{◌≡◌, ◌&&◌, ℕ, ◌+◌, ◌-◌, ◌^◌, ◌≤◌, ◌<◌, eqb};
ghost use Rattle.common.specs.Choice.{pick};
ghost use Rattle.ids.specs.Ids.{bit, is_format, id_bits};
ghost use Rattle.filters.specs.Filters.{is_filter, filter_low, field_meets, byte_meets, id_passes, data_passes};
ghost use Rattle.filters.specs.Filters.{mode_takes, frame_passes, free_bits, let_through};

use crate::Filter;
use ids::{Header, align};

// An Align from 0 to 3 and a MaskActive of 0 or 1.
#[tactic(auto, unfolding(crate::specs::Filters::is_filter))]
fn is_filter(align: u32, active: u32) -> bool
    ensures { result ≡ is_filter align active }
{
    align <= 3 && active <= 1
}

// The number of bits of an identifier.
#[tactic(auto, unfolding(ids::specs::Ids::id_bits))]
fn id_bits(format: u32) -> u32
    ensures { result ≡ id_bits format }
{
    if format == 1 { 11 } else { 29 }
}

// The lowest filter bit that an identifier meets: at Align 0 the same as at Align 3.
#[tactic(auto, using(crate::proofs::Fields::low_at_0, crate::proofs::Fields::low_past_0))]
fn filter_low(format: u32, align: u32) -> u32
    ensures { result ≡ filter_low format align }
{
    if align == 0 {
        return align::id_low(format, 3);
    }
    align::id_low(format, align)
}

// The bits of the mask that equal v, as ones.
#[tactic(auto, using(crate::proofs::Fields::same_flipped, crate::proofs::Fields::same_kept, crate::proofs::Fields::same_none))]
fn same_bits(mask: u32, v: u32) -> u32
    ensures { (k : ℕ) → k < 32 → bit result k ≡ pick (eqb (bit mask k) v) 1 0 }
{
    match v {
        0 => mask ^ 0xFFFF_FFFF,
        1 => mask,
        _ => 0,
    }
}

// The w lowest bits set.
#[tactic(auto, using(ids::proofs::Bits::one_shl))]
fn low_ones(w: u32) -> u32
    requires { w < 32 }
    ensures { result ≡ 2 ^ w - 1 }
{
    (1 << w) - 1
}

// In mode 0 an extended frame is filtered.
#[tactic(auto, unfolding(crate::specs::Filters::mode_takes))]
pub fn mode_takes(mode: u32, format: u32) -> bool
    ensures { result ≡ mode_takes mode format }
{
    mode != 0 || format != 2
}

impl Filter {
    // The filter has a column for this Align and format: else it lets nothing through.
    fn has_column(self, align: u32, format: u32) -> bool
        ensures { result ≡ (is_filter align self.active && is_format format) }
    {
        is_filter(align, self.active) && align::is_format(format)
    }

    // No bit of v that must match differs from the code's.
    #[tactic(auto, using(crate::proofs::Fields::field_closed))]
    fn field_meets(self, low: u32, v: u32, w: u32) -> bool
        requires { (low < 32) × (w < 32) × (low + w ≤ 32) }
        ensures { result ≡ field_meets self low v w }
    {
        let must = same_bits(self.mask, self.active) >> low;
        let clash = (v ^ (self.code >> low)) & must;
        clash & low_ones(w) == 0
    }

    // The identifier meets its filter bits.
    #[tactic(auto, unfolding(crate::specs::Filters::id_passes), using(crate::proofs::Fields::filter_in_word))]
    pub fn id_passes(self, align: u32, format: u32, id: u32) -> bool
        ensures { result ≡ id_passes align self format id }
    {
        self.has_column(align, format)
            && self.field_meets(filter_low(format, align), id, id_bits(format))
    }

    // Data byte i meets the filter bits from low up, or isn't carried.
    #[tactic(auto, unfolding(crate::specs::Filters::byte_meets))]
    fn byte_meets(self, header: Header, i: u32, low: u32, b: u8) -> bool
        requires { low ≤ 8 }
        ensures { result ≡ byte_meets self header i low b }
    {
        header.carried() <= i || self.field_meets(low, b as u32, 8)
    }

    // The first two data bytes meet the filter, where it compares them.
    #[tactic(auto, unfolding(crate::specs::Filters::data_passes, crate::specs::Filters::data_compared))]
    fn data_passes(self, align: u32, header: Header, first: u8, second: u8) -> bool
        ensures { result ≡ data_passes align self header first second }
    {
        header.format != 1
            || align == 1
            || (self.byte_meets(header, 0, 8, first) && self.byte_meets(header, 1, 0, second))
    }

    // A frame whose first two data bytes are these passes the filter; one that must match no bit is done at once.
    #[tactic(auto, unfolding(crate::specs::Filters::frame_passes), using(crate::proofs::Open::open_passes))]
    pub fn passes(self, mode: u32, align: u32, header: Header, first: u8, second: u8) -> bool
        ensures { result ≡ frame_passes mode align self header first second }
    {
        if !mode_takes(mode, header.format) {
            return false;
        }
        if same_bits(self.mask, self.active) == 0 {
            return self.has_column(align, header.format);
        }
        self.id_passes(align, header.format, header.id)
            && self.data_passes(align, header, first, second)
    }

    // How many of the w filter bits from low up are free.
    #[tactic(auto, using(crate::proofs::Fields::free_closed))]
    fn free_bits(self, low: u32, w: u32) -> u32
        requires { (self.active ≤ 1) × (low < 32) × (w < 32) × (low + w ≤ 32) }
        ensures { result ≡ free_bits self low w }
    {
        let free = same_bits(self.mask, 1 - self.active) >> low;
        (free & low_ones(w)).count_ones()
    }

    // How many identifiers of a format the filter lets through.
    #[tactic(auto, unfolding(crate::specs::Filters::let_through), using(crate::proofs::Fields::filter_in_word, crate::proofs::Fields::filter_active, crate::proofs::Fields::free_small, ids::proofs::Bits::one_shl))]
    pub fn let_through(self, align: u32, format: u32) -> u32
        ensures { result ≡ let_through align self format }
    {
        if !self.has_column(align, format) {
            return 0;
        }
        1 << self.free_bits(filter_low(format, align), id_bits(format))
    }
}
