ghost use Rattle.std.specs.Prelude.{◌≡◌};
ghost use Rattle.der_core.specs.FaultTexts.{kind_text};
ghost use Rattle.der_core.specs.Reading.{fault};

use std::fmt;
use thiserror::Error;

/// What is wrong with octets that should have a certain form. `Fact` of `specs/Faults.antt` defines each kind.
#[derive(Clone, Copy, Debug, PartialEq, Eq)]
pub enum Kind {
    /// M1: an identifier or a length octet must follow, and the input or the enclosing body ends.
    End,
    /// M2: where an identifier is due, an octet whose low five bits are all one, or 00.
    HighTag,
    /// M3: where a first length octet is due, 80, the indefinite form, which DER excludes (X.690 10.1).
    Indefinite,
    /// M4: a length with more than four further octets, or not in the shortest form (X.690 10.1).
    LengthForm,
    /// M5: an element whose length goes past the end of the input or of the enclosing body.
    Overrun,
    /// M6: an element with an identifier that the grammar doesn't allow there.
    Tag,
    /// M7: an octet after the grammar of the body or of the input is complete.
    Trailing,
    /// M8: contents that are not those of an INTEGER (X.690 8.3).
    Integer,
    /// M9: contents that are not those of an OBJECT IDENTIFIER (X.690 8.19).
    Oid,
    /// M10: contents that are not those of a BOOLEAN (X.690 8.2, 11.1).
    Boolean,
    /// M11: contents that are not those of a BIT STRING (X.690 8.6, 11.2).
    Bits,
    /// M12: contents that are not those of the time type (X.690 11.7, 11.8).
    Time,
    /// M13: well-formed contents with a value that is not allowed, or a second extension of a kind that may occur once.
    Value,
    /// M14: an element of an ordered set that is less than the one before it (X.690 11.6).
    Order,
    /// M15: a set that must have a member and has none.
    Empty,
}

/// What is wrong, and where: `at` counts octets from 0, from the first octet that a read call was given.
#[derive(Clone, Copy, Debug, PartialEq, Eq, Error)]
pub struct Fault {
    /// What is wrong.
    pub kind: Kind,
    /// The octet at which it is wrong, from 0.
    pub at: u64,
}

/// Why a read call returned no value. No read of this workspace allocates, and a clause of each excludes `OutOfMemory`.
#[derive(Clone, Copy, Debug, PartialEq, Eq, Error)]
pub enum ReadFault {
    /// The octets don't have the form that was to be read.
    Malformed(Fault),
    /// Memory was refused.
    OutOfMemory,
}

impl Kind {
    /// Its code and its name, as `Display` prints them.
    pub fn text(self) -> &'static str
        ensures { result.now ≡ kind_text self }
    {
        match self {
            Kind::End => "M1 End",
            Kind::HighTag => "M2 HighTag",
            Kind::Indefinite => "M3 Indefinite",
            Kind::LengthForm => "M4 LengthForm",
            Kind::Overrun => "M5 Overrun",
            Kind::Tag => "M6 Tag",
            Kind::Trailing => "M7 Trailing",
            Kind::Integer => "M8 Integer",
            Kind::Oid => "M9 Oid",
            Kind::Boolean => "M10 Boolean",
            Kind::Bits => "M11 Bits",
            Kind::Time => "M12 Time",
            Kind::Value => "M13 Value",
            Kind::Order => "M14 Order",
            Kind::Empty => "M15 Empty",
        }
    }
}

impl Fault {
    /// What is wrong, at the octet `at`, from 0.
    pub fn new(kind: Kind, at: u64) -> Fault
        // Returns the fault of this kind at this position.
        ensures { result ≡ fault kind at }
    {
        Fault { kind, at }
    }
}

impl fmt::Display for Kind {
    ghost use Rattle.std.specs.Prelude.{Some};
    ghost use Rattle.der_core.specs.FaultTexts.{kind_text};

    ghost output = { λ k. Some (kind_text k) };

    fn fmt<W: fmt::Write>(&self, f: &mut fmt::Formatter<W>) -> fmt::Result {
        f.write_str(self.text())
    }
}

impl fmt::Display for Fault {
    ghost use Rattle.std.specs.Prelude.{Some};
    ghost use Rattle.der_core.specs.FaultTexts.{fault_text};

    ghost output = { λ f. Some (fault_text f) };

    fn fmt<W: fmt::Write>(&self, f: &mut fmt::Formatter<W>) -> fmt::Result {
        write!(f, "{} at {}", self.kind, self.at)
    }
}

impl fmt::Display for ReadFault {
    ghost use Rattle.std.specs.Prelude.{Some};
    ghost use Rattle.der_core.specs.FaultTexts.{read_fault_text};

    ghost output = { λ f. Some (read_fault_text f) };

    fn fmt<W: fmt::Write>(&self, f: &mut fmt::Formatter<W>) -> fmt::Result {
        match self {
            ReadFault::Malformed(fault) => write!(f, "malformed {fault}"),
            ReadFault::OutOfMemory => f.write_str("out of memory"),
        }
    }
}

impl From<Fault> for ReadFault {
    ghost use Rattle.std.specs.Prelude.{◌≡◌};
    ghost use Rattle.der_core.specs.declared.fault.ReadFault.TheVariants.{Malformed};

    // A fault becomes `Malformed` with this fault.
    ghost from_gives = { λ f e. e ≡ Malformed f };

    fn from(fault: Fault) -> ReadFault {
        ReadFault::Malformed(fault)
    }
}
