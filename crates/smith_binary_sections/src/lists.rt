ghost use Rattle.std.specs.Prelude.{◌≡◌, ℕ, List, OnOk, IfErr, Any, length, ◌^◌, ◌≤◌};
ghost use Rattle.std.specs.List.{zip};
ghost use Rattle.smith_binary.specs.Spelling.{Spelling};
ghost use Rattle.smith_binary.specs.declared.error.EncodeError.TheVariants.{Memory};
ghost use Rattle.smith_binary.specs.Faults.{IsFault};
ghost use Rattle.smith_binary.specs.Pieces.{Each, Writes, IsListIn};
ghost use Rattle.smith_binary_sections.specs.Long.{IsLongList};

use smith_binary::{EncodeError, Sink};

/// A value that has a spelling in the binary format.
pub trait Encode {
    /// The bytes that spell a value.
    ghost spells: { Spelling → Self → List ℕ → Type 0 };

    /// The values with a list of too many items.
    ghost is_long: { Self → Type 0 };

    /// Appends the value to `sink`.
    ///
    /// # Errors
    ///
    /// Returns [`EncodeError::TooLong`] if a list has 2^32 items, or a content 2^32 bytes, or more.
    fn encode(&self, sink: &mut Sink) -> Result<(), EncodeError>
        ensures writes { OnOk result (Writes (λ s. Self.spells s self.now) sink.old sink.new) }
        ensures fault { IfErr result (IsFault (Self.is_long self.now)) };
}

/// A writer of items, by their meaning in a module.
pub trait EncodeItem<T> {
    /// The bytes that spell an item.
    ghost spells: { Spelling → Self → T → List ℕ → Type 0 };

    /// The items with a list of too many items.
    ghost is_long: { Self → T → Type 0 };

    /// Appends `item` to `sink`.
    ///
    /// # Errors
    ///
    /// Returns [`EncodeError::TooLong`] as [`Encode::encode`] does.
    fn encode_item(&self, item: &T, sink: &mut Sink) -> Result<(), EncodeError>
        ensures writes { OnOk result (Writes (λ s. Self.spells s self.now item.now) sink.old sink.new) }
        ensures fault { IfErr result (IsFault (Self.is_long self.now item.now)) };
}

/// A writer of items whose two parts are in two lists.
pub trait EncodePair<A, B> {
    /// The bytes that spell an item.
    ghost spells: { Spelling → Self → A × B → List ℕ → Type 0 };

    /// Appends the item with the parts `first` and `second` to `sink`.
    fn encode_pair(&self, first: &A, second: &B, sink: &mut Sink) -> Result<(), EncodeError>
        ensures writes { OnOk result
            (Writes (λ s. Self.spells s self.now (first.now, second.now)) sink.old sink.new) }
        ensures memory { IfErr result (λ e. e ≡ Memory) };
}

/// A writer of items that mean the same in every module.
#[derive(Clone, Copy)]
pub struct Plain;

impl<T: Encode> EncodeItem<T> for Plain {
    ghost spells = { λ s _ item. T.spells s item };

    ghost is_long = { λ _ item. T.is_long item };

    fn encode_item(&self, item: &T, sink: &mut Sink) -> Result<(), EncodeError> {
        item.encode(sink)
    }
}

/// Writes `items` in order.
pub(crate) fn write_each<T, W: EncodeItem<T>>(
    writer: &W,
    items: &[T],
    sink: &mut Sink,
) -> Result<(), EncodeError>
    ensures writes { OnOk result (Writes (λ s. Each (W.spells s writer.now) items.now) sink.old sink.new) }
    ensures fault { IfErr result (IsFault (Any (W.is_long writer.now) items.now)) }
{
    for item in items {
        writer.encode_item(item, sink)?;
    }
    Ok(())
}

/// A list, whose items `writer` writes.
#[derive(Drop)]
pub struct Listed<'a, T, W> {
    /// The writer of an item.
    pub writer: W,
    /// The items, in order.
    pub items: &'a [T],
}

impl<'a, T, W: EncodeItem<T>> Encode for Listed<'a, T, W> {
    ghost spells = { λ s list. IsListIn s (W.spells s list.writer) list.items.now };

    ghost is_long = { λ list. IsLongList (W.is_long list.writer) list.items.now };

    fn encode(&self, sink: &mut Sink) -> Result<(), EncodeError> {
        sink.write_length(self.items.len())?;
        write_each(&self.writer, self.items, sink)
    }
}

/// Writes the number of `items`, then the items.
pub(crate) fn write_list<T: Encode>(items: &[T], sink: &mut Sink) -> Result<(), EncodeError>
    ensures writes { OnOk result (Writes (λ s. IsListIn s (T.spells s) items.now) sink.old sink.new) }
    ensures fault { IfErr result (IsFault (IsLongList T.is_long items.now)) }
{
    sink.write_length(items.len())?;
    write_each(&Plain, items, sink)
}

/// A list of items in two lists, which `writer` writes. An item without one of its parts is left
/// out.
#[derive(Drop)]
pub struct Zipped<'a, A, B, W> {
    /// The writer of an item.
    pub writer: W,
    /// The first part of each item, in order.
    pub firsts: &'a [A],
    /// The second part of each item, in order.
    pub seconds: &'a [B],
}

// Writes the items of `firsts` and `seconds` in order.
fn write_each_pair<A, B, W: EncodePair<A, B>>(
    writer: &W,
    firsts: &[A],
    seconds: &[B],
    sink: &mut Sink,
) -> Result<(), EncodeError>
    ensures writes { OnOk result
        (Writes (λ s. Each (W.spells s writer.now) (zip firsts.now seconds.now)) sink.old sink.new) }
    ensures memory { IfErr result (λ e. e ≡ Memory) }
{
    for (first, second) in firsts.iter().zip(seconds) {
        writer.encode_pair(first, second, sink)?;
    }
    Ok(())
}

impl<'a, A, B, W: EncodePair<A, B>> Encode for Zipped<'a, A, B, W> {
    ghost spells = { λ s list. IsListIn s (W.spells s list.writer) (zip list.firsts.now list.seconds.now) };

    ghost is_long = { λ list. 2 ^ 32 ≤ length (zip list.firsts.now list.seconds.now) };

    fn encode(&self, sink: &mut Sink) -> Result<(), EncodeError> {
        sink.write_length(self.firsts.len().min(self.seconds.len()))?;
        write_each_pair(&self.writer, self.firsts, self.seconds, sink)
    }
}
