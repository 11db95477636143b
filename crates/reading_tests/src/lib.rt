//! Tests of the crates that read and write bytes and texts: a cipher, messages and positions, a server's log, and workflows.
//! Most are tables, walked by one helper; a row's comment begins with the name of its case.
#![tactic(auto)]

#[cfg(test)]
mod cipher;
#[cfg(test)]
mod logs;
#[cfg(test)]
mod plans;
#[cfg(test)]
mod wire;
