//! Tests of mq_hpack.
mod decoder_tests;
mod encoder_tests;
