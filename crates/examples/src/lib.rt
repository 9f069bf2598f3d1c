// Examples of every layer, as tests: values that the standard prints or that another implementation gave, and the ends of ranges.
#![tactic(auto)]

#[cfg(test)]
mod digest_sessions;
#[cfg(test)]
mod engine_calls;
#[cfg(test)]
mod frames;
#[cfg(test)]
mod link_keys;
#[cfg(test)]
mod quota_piles;
#[cfg(test)]
mod sealed_texts;
