//! Types with synonyms unfolded.
ghost use Rattle.std.specs.Prelude.{◌≡◌, [], map};
ghost use Rattle.bg_ast.specs.Values.{is_map, result_of};
ghost use Rattle.bg_sense.specs.Types.{key_eq, key_types_eq, ty_eq};
ghost use Rattle.bg_sense.specs.Typing.{key_ty};
ghost use Rattle.bg_kinds.specs.KindViews.{kind_of, kind_in_of};
ghost use Rattle.bg_kinds.specs.Views.{key_of, base_of, keys_of, ref_of, ref_in};

/// What an index of a map may be: a whole number, or an element of the user type with this number.
#[derive(Clone, Copy, PartialEq, Eq, Debug)]
pub enum IndexType {
    Int,
    User(u32),
}

/// A type that is no map.
#[derive(Clone, Copy, PartialEq, Eq, Debug)]
pub enum Base {
    Int,
    Bool,
    User(u32),
}

/// The index types of one bracket.
#[derive(Debug, Drop)]
pub struct Keys {
    pub keys: Vec<IndexType>,
}

/// A type: a row of map brackets, the first the outermost, before a type that is no map.
#[derive(Debug, Drop)]
pub struct ValueType {
    pub maps: Vec<Keys>,
    pub base: Base,
}

/// The same, kept elsewhere.
#[derive(Clone, Copy)]
pub struct TypeRef<'a> {
    pub maps: &'a [Keys],
    pub base: Base,
}

impl ValueType {
    pub fn as_ref(&self) -> TypeRef<'_>
        ensures { ref_of result ≡ ref_in self.now }
    {
        TypeRef {
            maps: self.maps.as_slice(),
            base: self.base,
        }
    }
}

/// A type that is no map.
pub fn plain(base: Base) -> TypeRef<'static>
    ensures { ref_of result ≡ base_of base }
{
    TypeRef { maps: &[], base }
}

/// An index type as a type.
pub fn key_type(key: IndexType) -> TypeRef<'static>
    ensures { ref_of result ≡ key_ty (key_of key) }
{
    match key {
        IndexType::Int => plain(Base::Int),
        IndexType::User(t) => plain(Base::User(t)),
    }
}

fn is_same_base(a: Base, b: Base) -> bool
    ensures { result ≡ ty_eq (base_of a) (base_of b) }
{
    match (a, b) {
        (Base::Int, Base::Int) => true,
        (Base::Bool, Base::Bool) => true,
        (Base::User(t), Base::User(u)) => t == u,
        _ => false,
    }
}

fn is_same_key(a: IndexType, b: IndexType) -> bool
    ensures { result ≡ key_eq (key_of a) (key_of b) }
{
    match (a, b) {
        (IndexType::Int, IndexType::Int) => true,
        (IndexType::User(t), IndexType::User(u)) => t == u,
        _ => false,
    }
}

#[tactic(auto, using(crate::proofs::Types::keys_differ))]
fn are_same_keys(a: &[IndexType], b: &[IndexType]) -> bool
    ensures { result ≡ key_types_eq (map key_of a.now) (map key_of b.now) }
{
    if a.len() != b.len() {
        return false;
    }
    for i in 0..a.len() {
        if !is_same_key(a[i], b[i]) {
            return false;
        }
    }
    true
}

/// Whether two types are the same. The time is linear in their size.
#[tactic(auto, using(crate::proofs::Types::towers_differ))]
pub fn is_same_type(a: TypeRef<'_>, b: TypeRef<'_>) -> bool
    ensures { result ≡ ty_eq (ref_of a.entry) (ref_of b.entry) }
{
    if a.maps.len() != b.maps.len() {
        return false;
    }
    for i in 0..a.maps.len() {
        if !are_same_keys(&a.maps[i].keys, &b.maps[i].keys) {
            return false;
        }
    }
    is_same_base(a.base, b.base)
}

/// The type, where a declaration has one.
pub fn kind_ref(kind: &Option<ValueType>) -> Option<TypeRef<'_>>
    ensures { kind_of result ≡ kind_in_of kind.now }
{
    match kind {
        None => None,
        Some(t) => Some(t.as_ref()),
    }
}
