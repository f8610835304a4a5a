ghost use Rattle.std.specs.Prelude.{◌≡◌};

/// Why a script left the profile: a named refusal.
#[derive(Clone, Copy, PartialEq, Eq, Debug)]
pub enum OutsideKind {
    /// A floating type or instruction.
    Float,
    /// A SIMD type or instruction.
    Simd,
    /// A Number that isn't whole or lies beyond 2^53-1.
    Number,
    /// A BigInt beyond signed 128 bits.
    BigInt,
    /// A text as a number.
    TextNumber,
    /// Two texts compared.
    TextOrder,
    /// A text longer than its limit.
    TextSize,
    /// An object as a primitive value.
    ToPrimitive,
    /// A computed key that is neither a text nor a Number.
    Key,
    /// A member that plain objects inherit.
    Inherited,
    /// A member of a primitive value.
    PrimitiveMember,
    /// A member that Arrays lack here.
    ArrayMember,
    /// An element beyond an Array's length.
    ArrayHole,
    /// An Array longer than its limit.
    ArraySize,
    /// A member that functions lack here.
    FunctionMember,
    /// A member that an object lacks here.
    ObjectMember,
    /// A member that can't be written.
    ObjectWrite,
    /// A name that a predefined object lacks.
    BuiltinMember,
    /// A method or predefined object as a value.
    BuiltinValue,
    /// A predefined name, or a member of one, that is written.
    BuiltinWrite,
    /// `new` of what isn't made by it here.
    Construct,
    /// An argument that isn't taken here.
    Argument,
    /// A module longer than its limit.
    ModuleSize,
    /// `__proto__` as a key of an object literal.
    ProtoKey,
    /// A form that isn't built yet.
    NotYet,
}

impl OutsideKind {
    ghost use Rattle.embed_base.specs.Names.{name_of};

    /// The name that the transcript shows.
    pub fn name(self) -> &'static str
        ensures { result.now ≡ name_of self }
    {
        match self {
            OutsideKind::Float => "float",
            OutsideKind::Simd => "simd",
            OutsideKind::Number => "number",
            OutsideKind::BigInt => "bigint",
            OutsideKind::TextNumber => "text-number",
            OutsideKind::TextOrder => "text-order",
            OutsideKind::TextSize => "text-size",
            OutsideKind::ToPrimitive => "to-primitive",
            OutsideKind::Key => "key",
            OutsideKind::Inherited => "inherited",
            OutsideKind::PrimitiveMember => "primitive-member",
            OutsideKind::ArrayMember => "array-member",
            OutsideKind::ArrayHole => "array-hole",
            OutsideKind::ArraySize => "array-size",
            OutsideKind::FunctionMember => "function-member",
            OutsideKind::ObjectMember => "object-member",
            OutsideKind::ObjectWrite => "object-write",
            OutsideKind::BuiltinMember => "builtin-member",
            OutsideKind::BuiltinValue => "builtin-value",
            OutsideKind::BuiltinWrite => "builtin-write",
            OutsideKind::Construct => "construct",
            OutsideKind::Argument => "argument",
            OutsideKind::ModuleSize => "module-size",
            OutsideKind::ProtoKey => "proto-key",
            OutsideKind::NotYet => "not-yet",
        }
    }
}

/// Where a named refusal stands: a byte of the script, or of a module.
#[derive(Clone, Copy, PartialEq, Eq, Debug)]
pub enum Place {
    Script(u64),
    Module(u64),
}

/// A named refusal at its place.
#[derive(Clone, Copy, PartialEq, Eq, Debug)]
pub struct Outside {
    pub kind: OutsideKind,
    pub place: Place,
}
