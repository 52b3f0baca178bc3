//! What can happen to the state of a domain, one small thing at a time.

mod endpoints;
mod peers;
mod requests;
