// The exported functions that save an image into a lent buffer, measure one, and load one.
ghost use Rattle.std.specs.Prelude.{◌≡◌};
ghost use Rattle.keeper.specs.Exports.{image_length};
ghost use Rattle.keeper.specs.BlockLists.{LoadPromise, SavePromise};

use crate::block::{WORDS, begin, held};
use crate::codes::{NO_IMAGE, NO_STATE, NOT_SAVED, code};
use seats::{loading, saving};

// Saves the block's state into the buffer: the length written, or NOT_SAVED and the code of what hinders it.
#[unsafe(no_mangle)]
pub extern "C" fn keeper_save(block: &[u64], buffer: &mut [u8]) -> u32
    ensures { SavePromise block.now buffer.old result buffer.new }
{
    let Some(sitting) = held(block) else {
        return NO_IMAGE;
    };
    match saving::save(sitting.state, buffer) {
        Ok(written) => written as u32,
        Err(too_short) => NOT_SAVED + code(Err(too_short)),
    }
}

// How long the image is that ends the bytes: its length, or NOT_SAVED and the code of what loading refuses it with.
#[unsafe(no_mangle)]
pub extern "C" fn keeper_image_length(bytes: &[u8]) -> u32
    ensures { result ≡ image_length bytes.now }
{
    match loading::image_length(bytes) {
        Ok(length) => length as u32,
        Err(refusal) => NOT_SAVED + code(Err(refusal)),
    }
}

// Loads the image that ends the bytes into the block, and begins a sitting with it.
#[unsafe(no_mangle)]
pub extern "C" fn keeper_load(block: &mut [u64], bytes: &[u8]) -> u32
    ensures { LoadPromise block.old bytes.now result block.new }
{
    let Some(words) = block.first_chunk_mut::<WORDS>() else {
        return NO_STATE;
    };
    match loading::read_image(bytes) {
        Ok(state) => {
            begin(words, state);
            0
        }
        Err(refusal) => code(Err(refusal)),
    }
}
