//! Why an operation gives no value.

use moo_value::ErrorCode;

/// Why an operation gives no value.
#[derive(Clone, Copy, Debug, PartialEq, Eq)]
pub enum OperationFault {
    /// The operation raises this error.
    Raise(ErrorCode),
    /// Memory for the value ran out.
    Memory,
}

pub(crate) const TYPE_MISMATCH: OperationFault = OperationFault::Raise(ErrorCode::TypeMismatch);

pub(crate) const RANGE: OperationFault = OperationFault::Raise(ErrorCode::Range);

pub(crate) const DIVISION: OperationFault = OperationFault::Raise(ErrorCode::Division);

pub(crate) const QUOTA: OperationFault = OperationFault::Raise(ErrorCode::Quota);
