// Elements: the key-downs of a row of amplitudes, with their times, in a lent list; and the row itself with its
// threshold.
#![tactic(auto)]

pub mod amplitude;
pub mod element;
pub mod find;
pub mod keying;
pub mod places;
pub mod threshold;

pub use amplitude::{AmplitudeRow, amplitude_row};
pub use element::{
    ELEMENT, Elements, KeyedElement, element_at, element_from, put_element, put_element_from,
};
pub use find::find_elements;
pub use keying::Found;
pub use places::Places;
