//! The lines that show what octets encode, requests, responses, TSTInfos, certificates, SignedData and evidence
//! records: each is the name of a field, a space and its value. Decision 83 of `docs/DECISIONS.md`.
#![tactic(auto)]

mod lines;
pub mod show_certificate;
pub mod show_evidence;
pub mod show_request;
pub mod show_response;
pub mod show_signed;
pub mod show_tst;
mod stated;
