//! Guards: no type of secret bytes is Clone, Debug or Display, and storage has no Drop.

// Two impls of one trait may not overlap. Each pair below overlaps as soon as the type has the
// unwanted trait. So an impl or a derive of that trait anywhere in the crate is an error, and no
// other crate may write one.

use crate::scrub_buf::ScrubBuf;
use crate::secret_bytes::SecretBytes;
use crate::storage::Storage;
use std::fmt::{Debug, Display};

trait IsNotClone {}

impl<T: Clone> IsNotClone for T {}

impl IsNotClone for SecretBytes {}

impl IsNotClone for ScrubBuf {}

impl IsNotClone for Storage {}

trait IsNotDebug {}

impl<T: Debug> IsNotDebug for T {}

impl IsNotDebug for SecretBytes {}

impl IsNotDebug for ScrubBuf {}

impl IsNotDebug for Storage {}

trait IsNotDisplay {}

impl<T: Display> IsNotDisplay for T {}

impl IsNotDisplay for SecretBytes {}

impl IsNotDisplay for ScrubBuf {}

impl IsNotDisplay for Storage {}

trait MustBeSpent {}

impl<T: Drop> MustBeSpent for T {}

impl MustBeSpent for Storage {}
