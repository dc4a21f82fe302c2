mod again;
mod bundle;
mod drive;
mod feed;
mod pull;
