#![tactic(auto)]
//! Tests of HTTP's rules of caching and of validation, as rows of text. Expected results are worked out by hand from the sentences of RFC
//! 9111, RFC 9110 and RFC 5861, and each row has the section that it is of.

#[cfg(test)]
mod age;
#[cfg(test)]
mod decisions;
#[cfg(test)]
mod desk;
#[cfg(test)]
mod heads;
#[cfg(test)]
mod lifetime;
#[cfg(test)]
mod serving;
#[cfg(test)]
mod stored_fields;
#[cfg(test)]
mod storing;
#[cfg(test)]
mod validation;
#[cfg(test)]
mod vary;
