//! The surface of `moo_value`.
use moo_value::{ErrorCode, ListLimit, MooList, MooStr, Value, ValueFault};
use std::alloc::{AllocError, Global};
use std::cmp::Ordering;

pub fn try_from_bytes(alloc: Global, bytes: &[u8]) -> Result<MooStr, ValueFault> {
    MooStr::try_from_bytes(alloc, bytes)
}

pub fn try_from_vec(alloc: Global, elements: Vec<Value>) -> Result<MooList, ListLimit> {
    MooList::try_from_vec(alloc, elements)
}

pub fn elements(list: &MooList) -> &[Value] {
    list.elements()
}

pub fn equal(a: &Value, b: &Value) -> bool {
    moo_value::equal(a, b)
}

pub fn same(a: &Value, b: &Value) -> bool {
    moo_value::same(a, b)
}

pub fn order(a: &Value, b: &Value) -> Option<Ordering> {
    moo_value::order(a, b)
}

pub fn is_true(value: &Value) -> bool {
    value.is_true()
}

pub fn to_literal(value: &Value, alloc: Global) -> Result<Vec<u8>, AllocError> {
    value.to_literal(alloc)
}

pub fn to_plain(value: &Value, alloc: Global) -> Result<Vec<u8>, AllocError> {
    value.to_plain(alloc)
}

pub fn weight(value: &Value) -> u32 {
    value.weight()
}

pub fn depth(value: &Value) -> u32 {
    value.depth()
}

pub fn try_clone(value: &Value) -> Result<Value, AllocError> {
    value.try_clone()
}

pub fn try_clone_string(string: &MooStr) -> Result<MooStr, AllocError> {
    string.try_clone()
}

/// Returns the type number of a value in a database text.
pub fn kind(value: &Value) -> u8 {
    match value {
        Value::Int(_) => 0,
        Value::Obj(_) => 1,
        Value::Str(_) => 2,
        Value::Err(_) => 3,
        Value::List(_) => 4,
    }
}

/// Returns the number of a fault in the order of the enum.
pub fn value_fault(fault: ValueFault) -> u8 {
    match fault {
        ValueFault::BadByte => 1,
        ValueFault::TooHeavy => 2,
        ValueFault::Memory => 3,
    }
}

/// Returns the number of a fault in the order of the enum.
pub fn list_limit(fault: ListLimit) -> u8 {
    match fault {
        ListLimit::TooLarge => 1,
        ListLimit::Memory => 2,
    }
}

/// Returns the number of an error in a database text.
pub fn error_number(error: ErrorCode) -> u8 {
    match error {
        ErrorCode::NoError => 0,
        ErrorCode::TypeMismatch => 1,
        ErrorCode::Division => 2,
        ErrorCode::Permission => 3,
        ErrorCode::PropertyNotFound => 4,
        ErrorCode::VerbNotFound => 5,
        ErrorCode::VariableNotFound => 6,
        ErrorCode::InvalidIndirection => 7,
        ErrorCode::RecursiveMove => 8,
        ErrorCode::MaximumRecursion => 9,
        ErrorCode::Range => 10,
        ErrorCode::Arguments => 11,
        ErrorCode::NotAccepted => 12,
        ErrorCode::InvalidArgument => 13,
        ErrorCode::Quota => 14,
        ErrorCode::Float => 15,
    }
}
