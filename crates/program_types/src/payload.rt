//! Payloads: the tables among the instructions of a code ("Dalvik bytecode": packed-switch-payload,
//! sparse-switch-payload, fill-array-data-payload).

/// A kind of payload, by what refers to it.
#[derive(Clone, Copy)]
pub enum Payload {
    /// Of packed-switch.
    PackedSwitch,
    /// Of sparse-switch.
    SparseSwitch,
    /// Of fill-array-data.
    Array,
}
