ghost use Rattle.std.specs.Prelude.{◌≡◌, ◌≤◌, IfSome, IfNone};
ghost use Rattle.dep_key.specs.KeyOrder.{kind_number, kind_at, aspect_number, aspect_at};

/// What a key stands for.
#[derive(Clone, Copy, Debug, PartialEq, Eq, PartialOrd, Ord)]
pub enum Kind {
    /// A name that is declared outside all types.
    TopLevel,
    /// The stored parts of a type.
    Nominal,
    /// That a type may have members.
    PotentialMember,
    /// A member of a type.
    Member,
    /// A name that is looked up in any type.
    DynamicLookup,
    /// A file outside the module.
    ExternalDepend,
    /// A source file of the module.
    SourceFileProvide,
}

impl Kind {
    /// The number of the kind, from 0 in the order of the type.
    pub fn number(self) -> u64
        ensures { result ≡ kind_number self }
    {
        match self {
            Kind::TopLevel => 0,
            Kind::Nominal => 1,
            Kind::PotentialMember => 2,
            Kind::Member => 3,
            Kind::DynamicLookup => 4,
            Kind::ExternalDepend => 5,
            Kind::SourceFileProvide => 6,
        }
    }

    /// The kind that has this number, and `None` from 7 on.
    pub fn from_number(number: u64) -> Option<Kind>
        ensures value { result ≡ kind_at number }
        ensures some { IfSome result (λ kind. kind_number kind ≡ number) }
        ensures none { IfNone result (7 ≤ number) }
    {
        match number {
            0 => Some(Kind::TopLevel),
            1 => Some(Kind::Nominal),
            2 => Some(Kind::PotentialMember),
            3 => Some(Kind::Member),
            4 => Some(Kind::DynamicLookup),
            5 => Some(Kind::ExternalDepend),
            6 => Some(Kind::SourceFileProvide),
            _ => None,
        }
    }
}

/// Which side of a declaration a key stands for.
#[derive(Clone, Copy, Debug, PartialEq, Eq, PartialOrd, Ord)]
pub enum Aspect {
    /// What other files see.
    Interface,
    /// What the file itself needs.
    Implementation,
}

impl Aspect {
    /// The number of the aspect, from 0 in the order of the type.
    pub fn number(self) -> u64
        ensures { result ≡ aspect_number self }
    {
        match self {
            Aspect::Interface => 0,
            Aspect::Implementation => 1,
        }
    }

    /// The aspect that has this number, and `None` from 2 on.
    pub fn from_number(number: u64) -> Option<Aspect>
        ensures value { result ≡ aspect_at number }
        ensures some { IfSome result (λ aspect. aspect_number aspect ≡ number) }
        ensures none { IfNone result (2 ≤ number) }
    {
        match number {
            0 => Some(Aspect::Interface),
            1 => Some(Aspect::Implementation),
            _ => None,
        }
    }
}
