//! Values from the values of their words.

ghost use Rattle.std.specs.Prelude.{◌≡◌, map, IfOk, OnOk, IsOkUnless};
ghost use Rattle.dex_base.specs.Fault.{memory};
ghost use Rattle.program_types.specs.Content as content;
ghost use Rattle.program_types.specs.View.{value, name};
ghost use Rattle.listing_slots.specs.declared.datum.Datum.TheVariants as Datum;
ghost use Rattle.listing_slots.specs.declared.key.Key.TheVariants as Key;
ghost use Rattle.listing_slots.specs.inner.View.{datum};
ghost use Rattle.listing_lines.specs.Lines.{value_of, with_word, with_value};
ghost use Rattle.listing_lines.specs.inner.MakingView.{making};

use bumpalo::Bump;
use dex_base::Fault;
use listing_slots::{Datum, Key};
use program_types::{Name, Value};

/// The values so far, and where the open arrays begin in them.
#[derive(Drop)]
pub(crate) struct Making<'a> {
    pub values: Vec<Value<'a>, &'a Bump>,
    pub begins: Vec<usize, &'a Bump>,
}

/// The value of a name.
fn named(word_value: Name<'_>) -> Value<'_>
    ensures { value result ≡ content.Named (name word_value.entry) }
{
    match word_value {
        Name::Text(text) => Value::Text(text),
        Name::Desc(ty) => Value::Desc(ty),
        Name::Field(field) => Value::Field(field),
        Name::Method(method) => Value::Method(method),
    }
}

/// An array of these values.
fn array_of<'a>(alloc: &'a Bump, inner: &[Value<'a>]) -> Result<Value<'a>, Fault>
    ensures ok { IfOk result (λ v. value v ≡ content.Array (content.values (map value inner.now))) }
    ensures memory { IsOkUnless result memory }
{
    let elements = alloc.try_alloc_slice_copy(inner)?;
    Ok(Value::Array(elements))
}

impl<'a> Making<'a> {
    #[tactic(auto, unfolding(crate::specs::inner::MakingView::making))]
    fn put(&mut self, one: Value<'a>) -> Result<(), Fault>
        ensures put { OnOk result (making self.new ≡ with_value (making self.old) (value one.entry)) }
        ensures memory { IsOkUnless result memory }
    {
        self.values.push(one)?;
        Ok(())
    }

    /// The innermost array is whole.
    fn close(&mut self, alloc: &'a Bump) -> Result<(), Fault>
        ensures put { OnOk result (making self.new ≡ with_word (making self.old) (datum (Datum.Key Key.Close))) }
        ensures memory { IsOkUnless result memory }
    {
        let Some(begin) = self.begins.pop() else {
            return Ok(());
        };
        let cut = begin.min(self.values.len());
        let (_, inner) = self.values.as_slice().split_at(cut);
        let whole = array_of(alloc, inner)?;
        self.values.truncate(cut);
        self.values.push(whole)?;
        Ok(())
    }

    #[tactic(auto, unfolding(crate::specs::inner::MakingView::making))]
    fn put_key(&mut self, alloc: &'a Bump, key: Key) -> Result<(), Fault>
        ensures put { OnOk result (making self.new ≡ with_word (making self.old) (datum (Datum.Key key))) }
        ensures memory { IsOkUnless result memory }
    {
        match key {
            Key::Open => {
                let begin = self.values.len();
                self.begins.push(begin)?;
                Ok(())
            }
            Key::Close => self.close(alloc),
            Key::Null => self.put(Value::Null),
            Key::True => self.put(Value::Bool(true)),
            Key::False => self.put(Value::Bool(false)),
            _ => Ok(()),
        }
    }

    fn put_word(&mut self, alloc: &'a Bump, word_value: Datum<'a>) -> Result<(), Fault>
        ensures put { OnOk result (making self.new ≡ with_word (making self.old) (datum word_value.entry)) }
        ensures memory { IsOkUnless result memory }
    {
        match word_value {
            Datum::Key(key) => self.put_key(alloc, key),
            Datum::Half(n) => self.put(Value::Char(n)),
            Datum::Word(n) => self.put(Value::Float(n)),
            Datum::Wide(n) => self.put(Value::Double(n)),
            Datum::Tiny(n) => self.put(Value::Byte(n)),
            Datum::Short(n) => self.put(Value::Short(n)),
            Datum::Int(n) => self.put(Value::Int(n)),
            Datum::Long(n) => self.put(Value::Long(n)),
            Datum::Name(found) => self.put(named(found)),
            Datum::Enum(field) => self.put(Value::Enum(field)),
            _ => Ok(()),
        }
    }
}

/// The value of the words.
pub(crate) fn make_value<'a>(alloc: &'a Bump, words: &[Datum<'a>]) -> Result<Value<'a>, Fault>
    ensures ok { IfOk result (λ v. value v ≡ value_of (map datum words.now)) }
    ensures memory { IsOkUnless result memory }
{
    let mut made = Making {
        values: Vec::new(alloc),
        begins: Vec::new(alloc),
    };
    for i in 0..words.len() {
        made.put_word(alloc, words[i])?;
    }
    if made.values.len() == 0 {
        return Ok(Value::Null);
    }
    Ok(made.values[0])
}
