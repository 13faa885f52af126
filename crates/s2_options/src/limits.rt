//! The ranges of the parser's numbers are those of the types that are made of them.
use s2_words::limits;

const _: () = prove!(limits::MAX_ADDRESSES as usize == s2_rows::MAX_ADDRESSES);

const _: () = prove!(limits::MAX_NUMBER == s2_scramble::MAX_NUMBER);

const _: () = prove!(limits::MAX_ROLL_OFF == s2_link::MAX_ROLL_OFF);

const _: () = prove!(limits::MAX_ROUNDS == s2_tuning::MAX_ROUNDS);

const _: () = prove!(limits::MAX_PASSES == s2_tuning::MAX_PASSES);

const _: () = prove!(limits::LEAST_FACTOR == s2_minsum::LEAST_FACTOR);

const _: () = prove!(limits::MAX_FACTOR == s2_minsum::MAX_FACTOR);

const _: () = prove!(limits::LEAST_LOCK == s2_plframe::HEADER_THRESHOLD);

const _: () = prove!(limits::MAX_LOCK == s2_plframe::MAX_LOCK);

const _: () = prove!(limits::LEAST_ESN0 == s2_channel::LEAST_ESN0);

const _: () = prove!(limits::MAX_ESN0 == s2_channel::MAX_ESN0);
