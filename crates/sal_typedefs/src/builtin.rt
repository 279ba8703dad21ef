//! The built-in types (RFC 7950 section 4.2.4).
ghost use Rattle.std.specs.Prelude.{◌≡◌, ◌-◌, ◌∷◌, [], ◌≤◌, ◌≤ℤ◌, IfOk, map, pos, neg_ℤ};
ghost use Rattle.sal_typedefs.specs.Builtins as spec;
ghost use Rattle.sal_restrict.specs.declared.yang_type.YangType.TheViews.{out-YangType};
ghost use Rattle.sal_typedefs.specs.Builtins.{bits_of};
ghost use Rattle.sal_typedefs.specs.declared.builtin.Builtin.TheVariants as kind;
ghost use Rattle.sal_typedefs.specs.Restrictions.{HasNumbers};

use sal_restrict::{Part, Ranges, YangType};
use sal_types::{NoMemory, Seq, Str, append};
use std::alloc::Global;

/// How many bits a whole number has.
#[derive(Clone, Copy, PartialEq, Eq)]
pub(crate) enum Width {
    Bits8,
    Bits16,
    Bits32,
    Bits64,
}

/// A built-in type.
#[derive(Clone, Copy, PartialEq, Eq)]
pub(crate) enum Builtin {
    Int { width: Width, signed: bool },
    Dec,
    Text,
    Bool,
    Enum,
    Bits,
    Bin,
    Ident,
    Empty,
    Union,
    Leafref,
}

/// Each built-in type after its name, the most frequent first.
const NAMES: [(&str, Builtin); 18] = [
    ("string", Builtin::Text),
    ("boolean", Builtin::Bool),
    (
        "uint32",
        Builtin::Int {
            width: Width::Bits32,
            signed: false,
        },
    ),
    (
        "uint8",
        Builtin::Int {
            width: Width::Bits8,
            signed: false,
        },
    ),
    (
        "uint16",
        Builtin::Int {
            width: Width::Bits16,
            signed: false,
        },
    ),
    (
        "uint64",
        Builtin::Int {
            width: Width::Bits64,
            signed: false,
        },
    ),
    (
        "int32",
        Builtin::Int {
            width: Width::Bits32,
            signed: true,
        },
    ),
    (
        "int8",
        Builtin::Int {
            width: Width::Bits8,
            signed: true,
        },
    ),
    (
        "int16",
        Builtin::Int {
            width: Width::Bits16,
            signed: true,
        },
    ),
    (
        "int64",
        Builtin::Int {
            width: Width::Bits64,
            signed: true,
        },
    ),
    ("enumeration", Builtin::Enum),
    ("union", Builtin::Union),
    ("leafref", Builtin::Leafref),
    ("identityref", Builtin::Ident),
    ("decimal64", Builtin::Dec),
    ("bits", Builtin::Bits),
    ("binary", Builtin::Bin),
    ("empty", Builtin::Empty),
];

fn find_builtin(names: &[(&'static str, Builtin)], name: &str) -> Option<Builtin>
    ensures { result ≡ spec.builtin_among (map spec.name_view names.now) name.now }
{
    for one in names {
        if one.0 == name {
            return Some(one.1);
        }
    }
    None
}

/// The built-in type of this name.
#[tactic(auto, unfolding(crate::specs::Builtins::builtin_of))]
pub(crate) fn builtin_of(name: &str) -> Option<Builtin>
    ensures { result ≡ spec.builtin_of name.now }
{
    find_builtin(&NAMES, name)
}

/// The numbers from one to another.
fn range(alloc: Global, low: i128, high: i128) -> Result<Ranges, NoMemory>
    requires { low ≤ℤ high }
    ensures { IfOk result (λ ranges. ranges ≡ record { low = low; high = high } ∷ []) }
{
    let mut list = Vec::with_capacity(alloc, 1)?;
    append(&mut list, Part { low, high })?;
    Ok(Ranges::from_items(list))
}

/// The lowest and the highest number of this many bits.
fn bounds(width: Width, signed: bool) -> (i128, i128)
    ensures value { spec.numbers_of (bits_of width) signed ≡ record { low = result.0; high = result.1 } ∷ [] }
    ensures order { result.0 ≤ℤ result.1 }
{
    match (width, signed) {
        (Width::Bits8, true) => (-128, 127),
        (Width::Bits16, true) => (-32_768, 32_767),
        (Width::Bits32, true) => (-2_147_483_648, 2_147_483_647),
        (Width::Bits64, true) => (-9_223_372_036_854_775_808, 9_223_372_036_854_775_807),
        (Width::Bits8, false) => (0, 255),
        (Width::Bits16, false) => (0, 65_535),
        (Width::Bits32, false) => (0, 4_294_967_295),
        (Width::Bits64, false) => (0, 18_446_744_073_709_551_615),
    }
}

fn numbers_of(alloc: Global, width: Width, signed: bool) -> Result<Ranges, NoMemory>
    ensures { IfOk result (λ ranges. ranges ≡ spec.numbers_of (bits_of width) signed) }
{
    let (low, high) = bounds(width, signed);
    range(alloc, low, high)
}

impl Width {
    fn bits(self) -> u8
        ensures { result ≡ bits_of self }
    {
        match self {
            Width::Bits8 => 8,
            Width::Bits16 => 16,
            Width::Bits32 => 32,
            Width::Bits64 => 64,
        }
    }
}

// Types with numbers have functions of their own, each with one value whose allocation can fail.

fn int_type(alloc: Global, width: Width, signed: bool) -> Result<YangType, NoMemory>
    ensures value { IfOk result (λ t. t ≡ spec.type_of (kind.Int width signed)) }
    ensures numbers { IfOk result (λ t. HasNumbers (out-YangType t)) }
{
    Ok(YangType::Int {
        bits: width.bits(),
        signed,
        range: numbers_of(alloc, width, signed)?,
    })
}

fn dec_type(alloc: Global) -> Result<YangType, NoMemory>
    ensures value { IfOk result (λ t. t ≡ spec.type_of kind.Dec) }
    ensures numbers { IfOk result (λ t. HasNumbers (out-YangType t)) }
{
    Ok(YangType::Dec {
        digits: 0,
        range: numbers_of(alloc, Width::Bits64, true)?,
    })
}

fn text_type(alloc: Global) -> Result<YangType, NoMemory>
    ensures value { IfOk result (λ t. t ≡ spec.type_of kind.Text) }
    ensures numbers { IfOk result (λ t. HasNumbers (out-YangType t)) }
{
    Ok(YangType::Text {
        length: numbers_of(alloc, Width::Bits64, false)?,
        patterns: Seq::new(alloc),
    })
}

fn bin_type(alloc: Global) -> Result<YangType, NoMemory>
    ensures value { IfOk result (λ t. t ≡ spec.type_of kind.Bin) }
    ensures numbers { IfOk result (λ t. HasNumbers (out-YangType t)) }
{
    Ok(YangType::Bin {
        length: numbers_of(alloc, Width::Bits64, false)?,
    })
}

fn leafref_type(alloc: Global) -> Result<YangType, NoMemory>
    ensures value { IfOk result (λ t. t ≡ spec.type_of kind.Leafref) }
    ensures numbers { IfOk result (λ t. HasNumbers (out-YangType t)) }
{
    Ok(YangType::Leafref {
        path: Str::new(alloc, "")?,
    })
}

impl Builtin {
    /// The type before a statement restricts it.
    pub(crate) fn bare(self, alloc: Global) -> Result<YangType, NoMemory>
        ensures value { IfOk result (λ t. t ≡ spec.type_of self) }
        ensures numbers { IfOk result (λ t. HasNumbers (out-YangType t)) }
    {
        match self {
            Builtin::Int { width, signed } => int_type(alloc, width, signed),
            Builtin::Dec => dec_type(alloc),
            Builtin::Text => text_type(alloc),
            Builtin::Bool => Ok(YangType::Bool),
            Builtin::Enum => Ok(YangType::Enum {
                names: Seq::new(alloc),
                places: Seq::new(alloc),
            }),
            Builtin::Bits => Ok(YangType::Bits {
                names: Seq::new(alloc),
                positions: Seq::new(alloc),
            }),
            Builtin::Bin => bin_type(alloc),
            Builtin::Ident => Ok(YangType::Ident {
                bases: Seq::new(alloc),
            }),
            Builtin::Empty => Ok(YangType::Empty),
            Builtin::Union => Ok(YangType::Union {
                members: Seq::new(alloc),
            }),
            Builtin::Leafref => leafref_type(alloc),
        }
    }
}
