//! Personalisation: configurations in TOML, the images that they give, the text that shows a record, and the plans of
//! terminals.
#![tactic(auto)]

mod config;
mod files;
mod form;
mod forms;
mod image;
mod issuing;
mod keys;
mod kit;
mod kit_keys;
mod lists;
mod names;
mod plan_keys;
mod reading;
mod show;

pub use config::{Config, ConfigError};
pub use image::image_of;
pub use issuing::kit_of;
pub use kit::{KitError, KitPlan};
pub use reading::{read_config, read_kit, read_plan};
pub use show::show_text;
