//! The class that is open.

ghost use Rattle.std.specs.Prelude.{◌≡◌, Some, None, IfOk, IsOkUnless, MatchBool};
ghost use Rattle.dex_base.specs.Fault.{memory};

use crate::close::set_code;
use dex_base::{Fault, Seed};
use indexmap::IndexSet;
use listing_lines::Line;
use program_types::{Code, Desc, Member, Method, Proto, Str, Value};
use std::alloc::Global;
use std::collections::BTreeMap;

/// A field's name and type, by which it is held.
pub type FieldKey<'a> = (Str<'a>, Desc<'a>);

/// A method's name and prototype, by which it is held.
pub type MethodKey<'a> = (Str<'a>, &'a Proto<'a>);

/// What is held of a static field beside its key.
#[derive(Clone, Copy)]
pub struct Static<'a> {
    pub flags: u32,
    pub value: Option<Value<'a>>,
}

/// What is held of a method beside its key.
#[derive(Clone, Copy)]
pub struct Defined<'a> {
    pub flags: u32,
    pub code: Option<&'a Code<'a>>,
}

/// The class that is open. Its interfaces are a hashed set in the order of the text, its members are in the order of their keys.
#[derive(Drop)]
pub struct Open<'a> {
    pub ty: Desc<'a>,
    pub flags: u32,
    pub superclass: Option<Desc<'a>>,
    pub interfaces: IndexSet<Desc<'a>, Seed>,
    pub source: Option<Str<'a>>,
    pub statics: BTreeMap<FieldKey<'a>, Static<'a>>,
    pub instances: BTreeMap<FieldKey<'a>, u32>,
    pub directs: BTreeMap<MethodKey<'a>, Defined<'a>>,
    pub virtuals: BTreeMap<MethodKey<'a>, Defined<'a>>,
}

/// The method that a code belongs to.
#[derive(Clone, Copy)]
pub struct Owner<'a> {
    pub direct: bool,
    pub name: Str<'a>,
    pub proto: &'a Proto<'a>,
}

/// How far the lines of a class have come.
#[derive(Clone, Copy)]
pub enum ClassPart<'a> {
    /// Before its members.
    Heads,
    /// Among them.
    Members,
    /// After a method, whose code may follow.
    After(Owner<'a>),
}

/// A class to which the next line belongs.
#[derive(Drop)]
pub struct InClass<'a> {
    pub open: Open<'a>,
    pub part: ClassPart<'a>,
}

impl<'a> Open<'a> {
    ghost use Rattle.program_types.specs.View.{desc, str, member, method, value, code};
    ghost use Rattle.listing_parse.specs.States.{opened, with_superclass, with_source, with_interface, with_static, with_instance, with_direct, with_virtual, with_code_at};
    ghost use Rattle.listing_parse.specs.inner.View.{open_class, owner};
    ghost use Rattle.std.specs.Prelude.{option_map};

    /// A class without anything.
    #[tactic(auto, unfolding(crate::specs::inner::View::open_class))]
    pub(crate) fn new(alloc: Global, seed: Seed, ty: Desc<'a>, flags: u32) -> Open<'a>
        ensures { open_class result ≡ opened (desc ty.entry) flags }
    {
        Open {
            ty,
            flags,
            superclass: None,
            interfaces: IndexSet::with_hasher(alloc, seed),
            source: None,
            statics: BTreeMap::new(alloc),
            instances: BTreeMap::new(alloc),
            directs: BTreeMap::new(alloc),
            virtuals: BTreeMap::new(alloc),
        }
    }

    #[tactic(auto, unfolding(crate::specs::inner::View::open_class, crate::specs::States::with_superclass))]
    fn put_superclass(&mut self, ty: Desc<'a>) -> bool
        ensures { MatchBool result
            (with_superclass (open_class self.old) (desc ty.entry) ≡ Some (open_class self.new))
            (with_superclass (open_class self.old) (desc ty.entry) ≡ None) }
    {
        if self.superclass.is_some() {
            return false;
        }
        self.superclass = Some(ty);
        true
    }

    #[tactic(auto, unfolding(crate::specs::inner::View::open_class, crate::specs::States::with_source))]
    fn put_source(&mut self, text: Str<'a>) -> bool
        ensures { MatchBool result
            (with_source (open_class self.old) (str text.entry) ≡ Some (open_class self.new))
            (with_source (open_class self.old) (str text.entry) ≡ None) }
    {
        if self.source.is_some() {
            return false;
        }
        self.source = Some(text);
        true
    }

    #[tactic(auto, unfolding(crate::specs::inner::View::open_class, crate::specs::States::with_interface))]
    fn put_interface(&mut self, ty: Desc<'a>) -> Result<bool, Fault>
        ensures put { IfOk result (λ yes. MatchBool yes
            (with_interface (open_class self.old) (desc ty.entry) ≡ Some (open_class self.new))
            (with_interface (open_class self.old) (desc ty.entry) ≡ None)) }
        ensures memory { IsOkUnless result memory }
    {
        Ok(self.interfaces.insert(ty)?)
    }

    #[tactic(auto, unfolding(crate::specs::inner::View::open_class, crate::specs::States::with_static))]
    fn put_static(&mut self, field: Member<'a>, initial: Option<Value<'a>>) -> Result<bool, Fault>
        ensures put { IfOk result (λ yes. MatchBool yes
            (with_static (open_class self.old) (record { field = member field.entry; value = option_map value initial.entry }) ≡ Some (open_class self.new))
            (with_static (open_class self.old) (record { field = member field.entry; value = option_map value initial.entry }) ≡ None)) }
        ensures memory { IsOkUnless result memory }
    {
        let held = Static {
            flags: field.flags,
            value: initial,
        };
        let old = self.statics.insert((field.name, field.ty), held)?;
        Ok(old.is_none())
    }

    #[tactic(auto, unfolding(crate::specs::inner::View::open_class, crate::specs::States::with_instance))]
    fn put_instance(&mut self, field: Member<'a>) -> Result<bool, Fault>
        ensures put { IfOk result (λ yes. MatchBool yes
            (with_instance (open_class self.old) (member field.entry) ≡ Some (open_class self.new))
            (with_instance (open_class self.old) (member field.entry) ≡ None)) }
        ensures memory { IsOkUnless result memory }
    {
        let old = self.instances.insert((field.name, field.ty), field.flags)?;
        Ok(old.is_none())
    }

    #[tactic(auto, unfolding(crate::specs::inner::View::open_class, crate::specs::States::with_direct))]
    fn put_direct(&mut self, new: Method<'a>) -> Result<bool, Fault>
        ensures put { IfOk result (λ yes. MatchBool yes
            (with_direct (open_class self.old) (method new.entry) ≡ Some (open_class self.new))
            (with_direct (open_class self.old) (method new.entry) ≡ None)) }
        ensures memory { IsOkUnless result memory }
    {
        let held = Defined {
            flags: new.flags,
            code: new.code,
        };
        let old = self.directs.insert((new.name, new.proto), held)?;
        Ok(old.is_none())
    }

    #[tactic(auto, unfolding(crate::specs::inner::View::open_class, crate::specs::States::with_virtual))]
    fn put_virtual(&mut self, new: Method<'a>) -> Result<bool, Fault>
        ensures put { IfOk result (λ yes. MatchBool yes
            (with_virtual (open_class self.old) (method new.entry) ≡ Some (open_class self.new))
            (with_virtual (open_class self.old) (method new.entry) ≡ None)) }
        ensures memory { IsOkUnless result memory }
    {
        let held = Defined {
            flags: new.flags,
            code: new.code,
        };
        let old = self.virtuals.insert((new.name, new.proto), held)?;
        Ok(old.is_none())
    }

    /// The method that the code belongs to has it.
    #[tactic(auto, unfolding(crate::specs::inner::View::open_class))]
    pub(crate) fn put_code(&mut self, of: Owner<'a>, whole: &'a Code<'a>)
        ensures { open_class self.new ≡ with_code_at (open_class self.old) (owner of.entry) (code whole.now) }
    {
        if of.direct {
            set_code(&mut self.directs, of.name, of.proto, whole);
            return;
        }
        set_code(&mut self.virtuals, of.name, of.proto, whole);
    }
}

impl<'a> InClass<'a> {
    ghost use Rattle.listing_lines.specs.inner.LineView.{line};
    ghost use Rattle.listing_parse.specs.States.{class_line};
    ghost use Rattle.listing_parse.specs.inner.View.{open_class, class_part};

    /// Adds a line of the class alone; false if it repeats what the class has, or is of another kind.
    #[rattlefmt::skip]
    pub(crate) fn add(&mut self, next: Line<'a>) -> Result<bool, Fault>
        ensures added { IfOk result (λ yes. MatchBool yes
            (class_line (open_class self.old.open) (line next.entry)
            ≡ Some (open_class self.new.open, class_part self.new.part))
            (class_line (open_class self.old.open) (line next.entry) ≡ None)) }
        ensures memory { IsOkUnless result memory }
    {
        match next {
            Line::Super(ty) => { self.part = ClassPart::Heads; Ok(self.open.put_superclass(ty)) }
            Line::Implements(ty) => { self.part = ClassPart::Heads; self.open.put_interface(ty) }
            Line::Source(text) => { self.part = ClassPart::Heads; Ok(self.open.put_source(text)) }
            Line::Static(field, value) => { self.part = ClassPart::Members; self.open.put_static(field, value) }
            Line::Instance(field) => { self.part = ClassPart::Members; self.open.put_instance(field) }
            Line::Direct(new) => {
                self.part = ClassPart::After(Owner { direct: true, name: new.name, proto: new.proto });
                self.open.put_direct(new)
            }
            Line::Virtual(new) => {
                self.part = ClassPart::After(Owner { direct: false, name: new.name, proto: new.proto });
                self.open.put_virtual(new)
            }
            _ => Ok(false),
        }
    }
}
