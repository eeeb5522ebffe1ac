//! Predictors, of one shard and of many.
//! The rows are hand-computed from the plain list of marked keys.
use crate::rows::{Desk, Told, play_at, word};
use pcache_base::error::Result;
use pcache_base::key::CacheKey;
use pcache_base::reason::NoCacheReason;
use pcache_base::seed::Seed;
use pcache_predict::predictor::{CacheablePredictor, Predictor};
use std::alloc::{AllocError, Global};

#[derive(Drop)]
struct Foretold<P> {
    alloc: Global,
    predictor: P,
}

fn at_desk<P: Drop>(alloc: Global, predictor: Result<P, AllocError>) -> Result<Foretold<P>> {
    let predictor = predictor?;
    Ok(Foretold { alloc, predictor })
}

fn key(alloc: Global, primary: &str) -> Result<CacheKey> {
    let primary = primary.as_bytes().to_vec(alloc)?;
    Ok(CacheKey::new(primary, String::from_str(alloc, "1")?))
}

impl<P: CacheablePredictor> Desk for Foretold<P> {
    fn tell(&mut self, call: &'static str, told: &mut Told) {
        match key(self.alloc, word(call, 0)) {
            Ok(key) => answer(&mut self.predictor, &key, call, told),
            Err(refused) => told.refused(&refused),
        }
    }
}

fn answer<P: CacheablePredictor>(
    predictor: &mut P,
    key: &CacheKey,
    call: &'static str,
    told: &mut Told,
) {
    match word(call, 1) {
        "asks" => told.yes_or_no(predictor.cacheable_prediction(key)),
        "says" => says(predictor.predicted_uncacheable_reason(key), told),
        "marks" => marked(predictor.mark_uncacheable(key, reason(word(call, 2))), told),
        _ => told.yes_or_no(predictor.mark_cacheable(key)),
    }
}

fn says(reason: Option<NoCacheReason>, told: &mut Told) {
    match reason {
        Some(reason) => told.say(reason.as_str()),
        None => told.say("none"),
    }
}

fn marked(marked: Result<Option<bool>, AllocError>, told: &mut Told) {
    match marked {
        Ok(Some(is_new)) => told.yes_or_no(is_new),
        Ok(None) => told.say("skipped"),
        Err(refused) => told.refused(&refused.into()),
    }
}

fn reason(word: &'static str) -> NoCacheReason {
    match word {
        "InternalError" => NoCacheReason::InternalError,
        "StorageError" => NoCacheReason::StorageError,
        "OriginNotCache" => NoCacheReason::OriginNotCache,
        "ResponseTooLarge" => NoCacheReason::ResponseTooLarge,
        own => NoCacheReason::Custom(own),
    }
}

fn is_skipping(word: &str) -> bool {
    word == "Skipping"
}

const REASONS: &str = "
    b asks -> yes
    b marks InternalError -> skipped
    b asks -> yes
    b marks StorageError -> skipped
    b asks -> yes
    b marks OriginNotCache -> yes
    b asks -> no
    b unmarks -> no
    b asks -> yes
    b unmarks -> yes
    # the last reason counts
    b says -> none
    b marks AuthorizationHeader -> yes
    b says -> AuthorizationHeader
    b marks ResponseTooLarge -> no
    b says -> ResponseTooLarge
    b marks InternalError -> skipped
    b says -> ResponseTooLarge
    b unmarks -> no
    b says -> none";

#[test]
fn cacheability_and_last_reason(rt: HostRuntime) {
    let alloc = rt.alloc();
    play_at(
        &rt,
        alloc,
        at_desk(alloc, Predictor::<1>::new(alloc, Seed::fixed(), 10, None)),
        REASONS,
    );
}

const SKIPPED: &str = "
    b marks InternalError -> skipped
    b asks -> yes
    b marks DontCacheMe -> yes
    b asks -> no
    b unmarks -> no
    b marks Skipping -> skipped
    b asks -> yes";

#[test]
fn custom_skip_predicate(rt: HostRuntime) {
    let alloc = rt.alloc();
    play_at(
        &rt,
        alloc,
        at_desk(
            alloc,
            Predictor::<1>::new(alloc, Seed::fixed(), 10, Some(is_skipping)),
        ),
        SKIPPED,
    );
}

const FORGOTTEN: &str = "
    b marks OriginNotCache -> yes
    bc marks OriginNotCache -> yes
    cd marks OriginNotCache -> yes
    b marks OriginNotCache -> no
    de marks OriginNotCache -> yes
    b asks -> no
    bc asks -> yes
    cd asks -> no
    de asks -> no
    cd unmarks -> no
    bc asks -> yes";

#[test]
fn forgets_the_first_marked(rt: HostRuntime) {
    let alloc = rt.alloc();
    play_at(
        &rt,
        alloc,
        at_desk(alloc, Predictor::<1>::new(alloc, Seed::fixed(), 3, None)),
        FORGOTTEN,
    );
}

const SPREAD: &str = "
    a asks -> yes
    a marks OriginNotCache -> yes
    a asks -> no
    a unmarks -> no
    a asks -> yes
    b asks -> yes
    b marks OriginNotCache -> yes
    b asks -> no
    b unmarks -> no
    b asks -> yes
    c asks -> yes
    c marks OriginNotCache -> yes
    c asks -> no
    c unmarks -> no
    c asks -> yes
    d asks -> yes
    d marks OriginNotCache -> yes
    d asks -> no
    d unmarks -> no
    d asks -> yes
    e asks -> yes
    e marks OriginNotCache -> yes
    e asks -> no
    e unmarks -> no
    e asks -> yes
    f asks -> yes
    f marks OriginNotCache -> yes
    f asks -> no
    f unmarks -> no
    f asks -> yes
    g asks -> yes
    g marks OriginNotCache -> yes
    g asks -> no
    g unmarks -> no
    g asks -> yes
    h asks -> yes
    h marks OriginNotCache -> yes
    h asks -> no
    h unmarks -> no
    h asks -> yes";

#[test]
fn many_shards(rt: HostRuntime) {
    let alloc = rt.alloc();
    play_at(
        &rt,
        alloc,
        at_desk(alloc, Predictor::<64>::new(alloc, Seed::fixed(), 10, None)),
        SPREAD,
    );
}

const OF_ONE: &str = "
    a marks OriginNotCache -> yes
    b marks OriginNotCache -> yes
    a asks -> yes
    b asks -> no";

#[test]
fn no_capacity_counts_as_one(rt: HostRuntime) {
    let alloc = rt.alloc();
    play_at(
        &rt,
        alloc,
        at_desk(alloc, Predictor::<1>::new(alloc, Seed::fixed(), 0, None)),
        OF_ONE,
    );
}
